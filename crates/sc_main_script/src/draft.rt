//! A script that is read line by line, and where its lines may stand.
ghost use Rattle.std.specs.Prelude.{◌≡◌, ◌++◌, OnOk, IfOk, option_to_list, replicate};
ghost use Rattle.sc_model.specs.declared.event.Step.TheVariants.{Serve};
ghost use Rattle.sc_words.specs.Words.{Leaves};
ghost use Rattle.sc_main_script.specs.Scripts.{nothing, is_level, is_connection, has_room, may_set, held_name, policy_name, is_in_time, takes_level, with_version, with_connections, with_tokens, with_limit, with_policy, with_level, with_hold, with_fail, with_tool, with_run, with_key_step, with_place, with_job, with_bytes, with_read, with_serve, with_back, with_pass, with_line, finished, Answers};

use crate::frames::frame;
use crate::inputs::Inputs;
use crate::job_rule::JobRule;
use crate::level_rule::LevelRule;
use crate::level_rules::LevelRules;
use crate::line::{HoldLine, LevelLine, Line};
use crate::place_rule::PlaceRule;
use crate::policies::{PolicyName, fits_word, has_its_levels, policy_of};
use crate::run_rule::RunRule;
use crate::script::{Script, ScriptError};
use sc_compile::{KeyLine, Tool};
use sc_entry::{Counts, Items, NoMemory, Text};
use sc_model::{LevelPolicy, Step};
use sc_words::WordsError;
use std::alloc::Global;

/// The most levels that a script may have.
const MOST_LEVELS: usize = 16;

/// The most steps that a script may have, each repeat counted.
const MOST_STEPS: u64 = 10_000_000;

/// What the lines of a script so far say.
#[derive(Drop)]
pub struct Draft {
    /// Whether the first line has come.
    pub begun: bool,
    /// Whether input or a step has come.
    pub started: bool,
    /// Whether the number of connections has come.
    pub connected: bool,
    /// How many tokens there are, where a line said it.
    pub tokens: Option<u64>,
    /// How many bytes a frame's payload may have, where a line said it.
    pub limit: Option<u64>,
    /// How the levels are written, where a line said it.
    pub policy: Option<PolicyName>,
    /// The levels' own policies.
    pub words: Items<LevelPolicy>,
    /// The levels in their order.
    pub levels: LevelRules,
    /// Each level's keys that are held.
    pub held: Counts,
    pub tools: Items<Tool>,
    pub runs: Items<RunRule>,
    /// Why key steps give no key.
    pub keys: Items<KeyLine>,
    /// Why placings fail.
    pub places: Items<PlaceRule>,
    /// What distributed jobs come to.
    pub jobs: Items<JobRule>,
    /// What comes on each connection.
    pub inputs: Inputs,
    /// Each step by itself.
    pub steps: Items<Step>,
}

#[tactic(auto, unfolding(crate::specs::Scripts::held_name))]
fn name_held(alloc: Global, level: u64, key: &Text) -> Result<Text, NoMemory>
    ensures { IfOk result (λ name. name ≡ held_name level key.now) }
{
    let key = key.as_str();
    let name = format!(in alloc; "{level} {key}")?;
    Ok(Text::from_string(name))
}

fn serve_often(steps: &mut Items<Step>, connection: u64, times: u64) -> Result<(), NoMemory>
    ensures { OnOk result (steps.new ≡ steps.old ++ replicate times (Serve connection)) }
{
    for _ in 0..times {
        steps.push(Step::Serve(connection))?;
    }
    Ok(())
}

/// Adds a level's own policy, where it has one.
fn push_word(words: &mut Items<LevelPolicy>, word: Option<LevelPolicy>) -> Result<(), NoMemory>
    ensures { OnOk result (words.new ≡ words.old ++ option_to_list word) }
{
    match word {
        None => Ok(()),
        Some(policy) => words.push(policy),
    }
}

impl Draft {
    /// Before the first line.
    pub fn new(alloc: Global) -> Draft
        ensures { result ≡ nothing }
    {
        Draft {
            begun: false,
            started: false,
            connected: false,
            tokens: None,
            limit: None,
            policy: None,
            words: Items::new(alloc),
            levels: LevelRules::none(alloc),
            held: Counts::new(alloc),
            tools: Items::new(alloc),
            runs: Items::new(alloc),
            keys: Items::new(alloc),
            places: Items::new(alloc),
            jobs: Items::new(alloc),
            inputs: Inputs::none(alloc),
            steps: Items::new(alloc),
        }
    }

    fn is_level(&self, level: u64) -> bool
        ensures { result ≡ is_level level self.now }
    {
        level < self.levels.len() as u64
    }

    fn is_connection(&self, connection: u64) -> bool
        ensures { result ≡ is_connection connection self.now }
    {
        connection < self.inputs.len() as u64
    }

    /// Whether so many steps more are few enough.
    fn has_room(&self, times: u64) -> bool
        ensures { result ≡ has_room times self.now }
    {
        let steps = self.steps.len() as u64;
        steps <= MOST_STEPS && times <= MOST_STEPS - steps
    }

    fn may_set(&self) -> bool
        ensures { result ≡ may_set self.now }
    {
        self.begun && !self.started
    }

    #[tactic(auto, unfolding(crate::specs::Scripts::with_version))]
    fn add_version(&mut self) -> Result<(), WordsError>
        ensures { Leaves (with_version self.old) result self.new }
    {
        if self.begun {
            return Err(WordsError::Malformed);
        }
        self.begun = true;
        Ok(())
    }

    #[tactic(auto, unfolding(crate::specs::Scripts::with_connections))]
    fn add_connections(&mut self, alloc: Global, connections: u64) -> Result<(), WordsError>
        ensures { Leaves (with_connections self.old connections) result self.new }
    {
        if !self.may_set() || self.connected {
            return Err(WordsError::Malformed);
        }
        self.inputs = Inputs::new(alloc, connections)?;
        self.connected = true;
        Ok(())
    }

    #[tactic(auto, unfolding(crate::specs::Scripts::with_tokens))]
    fn add_tokens(&mut self, tokens: u64) -> Result<(), WordsError>
        ensures { Leaves (with_tokens self.old tokens) result self.new }
    {
        if !self.may_set() || self.tokens.is_some() {
            return Err(WordsError::Malformed);
        }
        self.tokens = Some(tokens);
        Ok(())
    }

    #[tactic(auto, unfolding(crate::specs::Scripts::with_limit))]
    fn add_limit(&mut self, limit: u64) -> Result<(), WordsError>
        ensures { Leaves (with_limit self.old limit) result self.new }
    {
        if !self.may_set() || self.limit.is_some() {
            return Err(WordsError::Malformed);
        }
        self.limit = Some(limit);
        Ok(())
    }

    /// How the levels are written, where no line says it yet.
    fn policy_name(&self) -> PolicyName
        ensures { result ≡ policy_name self.now }
    {
        self.policy.unwrap_or(PolicyName::Single)
    }

    fn is_in_time(&self, name: PolicyName) -> bool
        ensures { result ≡ is_in_time name self.now }
    {
        match name {
            PolicyName::Levels => self.levels.len() == 0,
            _ => true,
        }
    }

    #[tactic(auto, unfolding(crate::specs::Scripts::with_policy))]
    fn add_policy(&mut self, name: PolicyName) -> Result<(), WordsError>
        ensures { Leaves (with_policy self.old name) result self.new }
    {
        if !self.may_set() || self.policy.is_some() || !self.is_in_time(name) {
            return Err(WordsError::Malformed);
        }
        self.policy = Some(name);
        Ok(())
    }

    fn takes_level(&self, level: LevelLine) -> bool
        ensures { result ≡ takes_level self.now level }
    {
        self.levels.len() < MOST_LEVELS && fits_word(self.policy_name(), level.policy)
    }

    #[tactic(auto, unfolding(crate::specs::Scripts::with_level))]
    fn add_level(&mut self, alloc: Global, level: LevelLine) -> Result<(), WordsError>
        ensures { Leaves (with_level self.old level) result self.new }
    {
        if !self.begun || !self.takes_level(level) {
            return Err(WordsError::Malformed);
        }
        push_word(&mut self.words, level.policy)?;
        self.levels.push(LevelRule {
            kind: level.kind,
            capacity: level.capacity,
            mode: level.mode,
            holds: Items::new(alloc),
            fails: Items::new(alloc),
        })?;
        Ok(())
    }

    #[tactic(auto, unfolding(crate::specs::Scripts::with_hold))]
    fn add_hold(&mut self, alloc: Global, hold: HoldLine) -> Result<(), WordsError>
        ensures { Leaves (with_hold self.old hold) result self.new }
    {
        let name = name_held(alloc, hold.level, &hold.key)?;
        if !self.begun || !self.is_level(hold.level) || self.held.get(&name) != 0 {
            return Err(WordsError::Malformed);
        }
        self.held.add(&name, 1)?;
        self.levels.hold(hold.level as usize, hold.key, hold.bytes)?;
        Ok(())
    }

    #[tactic(auto, unfolding(crate::specs::Scripts::with_fail))]
    fn add_fail(&mut self, level: u64, call: u64) -> Result<(), WordsError>
        ensures { Leaves (with_fail self.old level call) result self.new }
    {
        if !self.begun || !self.is_level(level) {
            return Err(WordsError::Malformed);
        }
        self.levels.fail(level as usize, call)?;
        Ok(())
    }

    #[tactic(auto, unfolding(crate::specs::Scripts::with_tool))]
    fn add_tool(&mut self, tool: Tool) -> Result<(), WordsError>
        ensures { Leaves (with_tool self.old tool) result self.new }
    {
        if !self.begun {
            return Err(WordsError::Malformed);
        }
        self.tools.push(tool)?;
        Ok(())
    }

    #[tactic(auto, unfolding(crate::specs::Scripts::with_run))]
    fn add_run(&mut self, run: RunRule) -> Result<(), WordsError>
        ensures { Leaves (with_run self.old run) result self.new }
    {
        if !self.begun {
            return Err(WordsError::Malformed);
        }
        self.runs.push(run)?;
        Ok(())
    }

    #[tactic(auto, unfolding(crate::specs::Scripts::with_key_step))]
    fn add_key_step(&mut self, line: KeyLine) -> Result<(), WordsError>
        ensures { Leaves (with_key_step self.old line) result self.new }
    {
        if !self.begun {
            return Err(WordsError::Malformed);
        }
        self.keys.push(line)?;
        Ok(())
    }

    #[tactic(auto, unfolding(crate::specs::Scripts::with_place))]
    fn add_place(&mut self, rule: PlaceRule) -> Result<(), WordsError>
        ensures { Leaves (with_place self.old rule) result self.new }
    {
        if !self.begun {
            return Err(WordsError::Malformed);
        }
        self.places.push(rule)?;
        Ok(())
    }

    #[tactic(auto, unfolding(crate::specs::Scripts::with_job))]
    fn add_job(&mut self, rule: JobRule) -> Result<(), WordsError>
        ensures { Leaves (with_job self.old rule) result self.new }
    {
        if !self.begun {
            return Err(WordsError::Malformed);
        }
        self.jobs.push(rule)?;
        Ok(())
    }

    #[tactic(auto, unfolding(crate::specs::Scripts::with_bytes))]
    fn add_bytes(&mut self, connection: u64, bytes: &[u8]) -> Result<(), WordsError>
        ensures { Leaves (with_bytes self.old connection bytes.now) result self.new }
    {
        if !self.begun || !self.is_connection(connection) {
            return Err(WordsError::Malformed);
        }
        self.inputs.append(connection as usize, bytes)?;
        self.started = true;
        Ok(())
    }

    #[tactic(auto, unfolding(crate::specs::Scripts::with_read))]
    fn add_read(&mut self, connection: u64, most: u64) -> Result<(), WordsError>
        ensures { Leaves (with_read self.old connection most) result self.new }
    {
        if !self.begun || !self.is_connection(connection) || !self.has_room(1) {
            return Err(WordsError::Malformed);
        }
        self.steps.push(Step::Read(connection, most))?;
        self.started = true;
        Ok(())
    }

    #[tactic(auto, unfolding(crate::specs::Scripts::with_serve))]
    fn add_serve(&mut self, connection: u64, times: u64) -> Result<(), WordsError>
        ensures { Leaves (with_serve self.old connection times) result self.new }
    {
        if !self.begun || !self.is_connection(connection) || !self.has_room(times) {
            return Err(WordsError::Malformed);
        }
        serve_often(&mut self.steps, connection, times)?;
        self.started = true;
        Ok(())
    }

    #[tactic(auto, unfolding(crate::specs::Scripts::with_back))]
    fn add_back(&mut self, write: u64) -> Result<(), WordsError>
        ensures { Leaves (with_back self.old write) result self.new }
    {
        if !self.begun || !self.has_room(1) {
            return Err(WordsError::Malformed);
        }
        self.steps.push(Step::Back(write))?;
        self.started = true;
        Ok(())
    }

    #[tactic(auto, unfolding(crate::specs::Scripts::with_pass))]
    fn add_pass(&mut self, time: u64) -> Result<(), WordsError>
        ensures { Leaves (with_pass self.old time) result self.new }
    {
        if !self.begun || !self.has_room(1) {
            return Err(WordsError::Malformed);
        }
        self.steps.push(Step::Pass(time))?;
        self.started = true;
        Ok(())
    }

    /// Adds a line, where it may stand here.
    ///
    /// # Errors
    ///
    /// `Malformed` where it may not.
    #[tactic(auto, unfolding(crate::specs::Scripts::with_line))]
    pub fn add(&mut self, alloc: Global, line: Line) -> Result<(), WordsError>
        ensures { Leaves (with_line self.old line) result self.new }
    {
        match line {
            Line::Version => self.add_version(),
            Line::Connections(connections) => self.add_connections(alloc, connections),
            Line::Tokens(tokens) => self.add_tokens(tokens),
            Line::Limit(limit) => self.add_limit(limit),
            Line::Policy(name) => self.add_policy(name),
            Line::Level(level) => self.add_level(alloc, level),
            Line::Hold(hold) => self.add_hold(alloc, hold),
            Line::Fail { level, call } => self.add_fail(level, call),
            Line::Tool(tool) => self.add_tool(tool),
            Line::Run(run) => self.add_run(run),
            Line::KeyStep(line) => self.add_key_step(line),
            Line::Place(rule) => self.add_place(rule),
            Line::Job(rule) => self.add_job(rule),
            Line::Bytes { connection, bytes } => self.add_bytes(connection, bytes.as_slice()),
            Line::Ask {
                connection,
                request,
            } => {
                let bytes = frame(alloc, &request)?;
                self.add_bytes(connection, bytes.as_slice())
            }
            Line::Read { connection, most } => self.add_read(connection, most),
            Line::Serve { connection, times } => self.add_serve(connection, times),
            Line::Back(write) => self.add_back(write),
            Line::Pass(time) => self.add_pass(time),
        }
    }

    /// The script that the lines so far are, where `number` counts the line behind the last.
    ///
    /// # Errors
    ///
    /// `Bad` with that number where they are no whole script.
    pub fn finish(self, alloc: Global, number: u64) -> Result<Script, ScriptError>
        ensures { Answers (finished number self) result }
    {
        let name = self.policy_name();
        let levels = self.levels.len();
        if !self.begun || !has_its_levels(name, levels) {
            return Err(ScriptError::Bad(number));
        }
        let Ok(policy) = policy_of(alloc, name, levels, self.words) else {
            return Err(ScriptError::Memory);
        };
        Ok(Script {
            inputs: self.inputs.into_items(),
            tokens: self.tokens.unwrap_or(1),
            limit: self.limit.unwrap_or(8_388_608),
            policy,
            levels: self.levels.into_items(),
            tools: self.tools,
            runs: self.runs,
            keys: self.keys,
            places: self.places,
            jobs: self.jobs,
            steps: self.steps,
        })
    }
}
