ghost use Rattle.std.specs.Prelude.{◌≡◌, ◌+◌, ◌<◌, ◌↔◌, ℕ, true, None, MatchOption};

/// A token: leave to run one child. It can neither be copied nor be dropped, only be given back to a pool.
pub struct Token {
    made: (),
}

/// The tokens of a pool: those that are free, and those that are out.
#[derive(Drop)]
pub struct Pool {
    free: u64,
    out: u64,
    size: u64,
    pub ghost counted: { free + out ≡ size },
}

impl Pool {
    /// All tokens are free.
    pub fn new(size: u64) -> Pool
        ensures free { result.free ≡ size }
        ensures out { result.out ≡ 0 }
        ensures size { result.size ≡ size }
    {
        Pool {
            free: size,
            out: 0,
            size,
        }
    }

    /// How many tokens are free.
    pub fn free(&self) -> u64
        ensures { result ≡ self.now.free }
    {
        self.free
    }

    /// How many tokens are out.
    pub fn out(&self) -> u64
        ensures { result ≡ self.now.out }
    {
        self.out
    }

    /// How many tokens there are.
    pub fn size(&self) -> u64
        ensures size { result ≡ self.now.size }
        ensures counted { result ≡ self.now.free + self.now.out }
    {
        self.size
    }

    pub fn has_free(&self) -> bool
        ensures { (result ≡ true) ↔ (0 < self.now.free) }
    {
        self.free > 0
    }

    /// Takes a token. None exactly where no token is free.
    pub fn take(&mut self) -> Option<Token>
        ensures none { (result ≡ None) ↔ (self.old.free ≡ 0) }
        ensures taken { MatchOption result (self.new ≡ self.old) (λ _. (self.old.free ≡ self.new.free + 1) × (self.new.out ≡ self.old.out + 1)) }
        ensures size { self.new.size ≡ self.old.size }
    {
        if self.has_free() {
            Some(self.take_free())
        } else {
            None
        }
    }

    /// Takes a token of a pool that has one.
    pub fn take_free(&mut self) -> Token
        requires { 0 < self.old.free }
        ensures free { self.old.free ≡ self.new.free + 1 }
        ensures out { self.new.out ≡ self.old.out + 1 }
        ensures size { self.new.size ≡ self.old.size }
    {
        self.free -= 1;
        self.out += 1;
        Token { made: () }
    }

    /// Takes a token back. A pool that has none out takes none: such a token is another pool's.
    pub fn give(&mut self, token: Token)
        ensures given { 0 < self.old.out → (self.new.free ≡ self.old.free + 1) × (self.old.out ≡ self.new.out + 1) }
        ensures stray { self.old.out ≡ 0 → self.new ≡ self.old }
        ensures size { self.new.size ≡ self.old.size }
    {
        let Token { made: () } = token;
        if self.out > 0 {
            self.out -= 1;
            self.free += 1;
        }
    }
}
