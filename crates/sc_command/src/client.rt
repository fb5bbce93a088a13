//! Tokens that threads share.
//!
//! Whenever the lock is free, tokens out and free are the pool's size: it is an invariant of `Pool`, which a thread finds
//! when it takes the lock and owes when it lets go. The calls below say that their answer is what a pool answered. That it
//! was the pool behind this lock no clause can say: contracts see no difference between a client with a token free and one
//! without. A token is made by a pool alone and has no drop: a dropped `Acquired` hands it to `Pool::give`.
ghost use Rattle.std.specs.Prelude.{◌≡◌, ◌<◌, Some};
ghost use Rattle.sc_command.specs.Settings.{with_jobserver};
ghost use Rattle.sc_command.specs.Tokens.{Takes, IsTaken};

use crate::pool::{Pool, Token};
use crate::setting::Setting;
use sc_entry::NoMemory;
use std::alloc::Global;
use std::sync::{Arc, Condvar, Mutex, Wait};

/// A pool behind its lock, and the condition that a token came back.
#[derive(Drop)]
struct Shared {
    pool: Mutex<Pool>,
    freed: Condvar,
}

/// Takes a token of the pool that the lock guards, where one is free.
fn take(pool: &mut Pool) -> Option<Token>
    ensures { Takes pool.old result pool.new }
{
    pool.take()
}

/// Takes a token of the pool that the lock guards, which has one.
fn take_free(pool: &mut Pool) -> Token
    requires { 0 < pool.old.free }
    ensures { Takes pool.old (Some result) pool.new }
{
    pool.take_free()
}

impl Shared {
    fn token<R: Wait>(&self, rt: &R) -> Option<Token>
        ensures { IsTaken result }
    {
        take(&mut self.pool.lock(rt))
    }

    fn wait_for_token<R: Wait>(&self, rt: &R) -> Token
        ensures { IsTaken (Some result) }
    {
        let mut pool = self
            .freed
            .wait_while(rt, self.pool.lock(rt), |pool| !pool.has_free());
        take_free(&mut pool)
    }

    fn give_back<R: Wait>(&self, rt: &R, token: Token) {
        self.pool.lock(rt).give(token);
        self.freed.notify_one();
    }
}

/// A pool of tokens that threads share.
#[derive(Drop)]
pub struct Client {
    shared: Arc<Shared>,
}

/// A token of a client. Dropped, it goes back to the client, which wakes one that waits for it.
pub struct Acquired<'a, R: Wait> {
    rt: &'a R,
    client: &'a Client,
    token: Token,
}

impl<'a, R: Wait> Drop for Acquired<'a, R> {
    fn drop(self) {
        let Acquired { rt, client, token } = self;
        client.shared.give_back(rt, token);
    }
}

/// A token of a client, which it keeps beside its client. Dropped, it goes back as `Acquired` does.
pub struct AcquiredOwned<R: Wait + Drop> {
    rt: R,
    client: Client,
    token: Token,
}

impl<R: Wait + Drop> Drop for AcquiredOwned<R> {
    fn drop(self) {
        let AcquiredOwned { rt, client, token } = self;
        client.shared.give_back(&rt, token);
    }
}

impl Client {
    /// A pool of tokens, all free. There is one at least.
    pub fn new(alloc: Global, tokens: u64) -> Result<Client, NoMemory>
        requires { 0 < tokens }
    {
        Client::new_num(alloc, tokens)
    }

    /// The same pool, by another name.
    pub fn new_num(alloc: Global, tokens: u64) -> Result<Client, NoMemory>
        requires { 0 < tokens }
    {
        let shared = Shared {
            pool: Mutex::new(Pool::new(tokens)),
            freed: Condvar::new(),
        };
        Ok(Client {
            shared: Arc::new(alloc, shared)?,
        })
    }

    /// The same pool for another owner.
    pub fn try_clone(&self) -> Result<Client, NoMemory> {
        Ok(Client {
            shared: Arc::try_clone(&self.shared)?,
        })
    }

    /// Lets a command's child use the tokens of this process.
    pub fn configure(&self, setting: &mut Setting)
        ensures { setting.new ≡ with_jobserver setting.old }
    {
        setting.shares_jobserver = true;
    }

    /// Waits for a token.
    pub fn acquire<'a, R: Wait>(&'a self, rt: &'a R) -> Acquired<'a, R>
        ensures { IsTaken (Some result) }
    {
        let token = self.shared.wait_for_token(rt);
        Acquired {
            rt,
            client: self,
            token,
        }
    }

    /// A token, where one is free. None exactly where `Pool::take`, which this calls under the lock, found none.
    pub fn try_acquire<'a, R: Wait>(&'a self, rt: &'a R) -> Option<Acquired<'a, R>>
        ensures { IsTaken result }
    {
        match self.shared.token(rt) {
            Some(token) => Some(Acquired {
                rt,
                client: self,
                token,
            }),
            None => None,
        }
    }

    /// Waits for a token that may outlive this reference to the pool.
    pub fn acquire_owned<R: Wait + Drop>(self, rt: R) -> AcquiredOwned<R>
        ensures { IsTaken (Some result) }
    {
        let token = self.shared.wait_for_token(&rt);
        AcquiredOwned {
            rt,
            client: self,
            token,
        }
    }
}
