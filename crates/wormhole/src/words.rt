// The lent words: three sections of n words each, one word for a number of a channel.
ghost use Rattle.std.specs.Prelude.{◌≡◌, ◌+◌, ◌<◌, length};

/// The words, to read: n of each section.
#[derive(Clone, Copy)]
pub struct Words<'a> {
    pub n: usize,
    pub words: &'a [u16],
    pub ghost long: { length words.now ≡ n + n + n },
}

impl Words<'_> {
    ghost use Rattle.wormhole.specs.Memory.{owner_of, holds_of, next_of};
    ghost use Rattle.wormhole.specs.Coded.{seen};

    /// The owner of a channel: 0, or 1 + the record that holds it.
    pub fn owner(self, k: u16) -> u16
        requires { k < self.n }
        ensures { result ≡ owner_of (seen self.entry) k }
    {
        self.words[k as usize]
    }

    /// How many flits a channel holds.
    pub fn holds(self, k: u16) -> u16
        requires { k < self.n }
        ensures { result ≡ holds_of (seen self.entry) k }
    {
        self.words[self.n + (k as usize)]
    }

    /// The next of a channel: 0, or 1 + the channel that the same packet took after it.
    pub fn next(self, k: u16) -> u16
        requires { k < self.n }
        ensures { result ≡ next_of (seen self.entry) k }
    {
        self.words[self.n + self.n + (k as usize)]
    }
}

/// The words, to write. What a call leaves in them is said by `Becomes`, which also says that they are still
/// the lent ones. `holds` and `next` are said here once more: through a `Words` of the same words the proofs
/// of those who call them did not close.
#[derive(Drop)]
pub struct WordsMut<'a> {
    pub n: usize,
    pub words: &'a mut [u16],
    pub ghost long: { length words.now ≡ n + n + n },
}

impl WordsMut<'_> {
    ghost use Rattle.wormhole.specs.Memory.{holds_of, next_of, put, link, drain, fill};
    ghost use Rattle.wormhole.specs.Coded.{kept, Becomes};

    /// How many flits a channel holds.
    pub fn holds(&self, k: u16) -> u16
        requires { k < self.now.n }
        ensures { result ≡ holds_of (kept self.now) k }
    {
        self.words[self.n + (k as usize)]
    }

    /// The next of a channel.
    pub fn next(&self, k: u16) -> u16
        requires { k < self.now.n }
        ensures { result ≡ next_of (kept self.now) k }
    {
        self.words[self.n + self.n + (k as usize)]
    }

    /// Stores a channel's three words.
    pub fn put(&mut self, k: u16, owner: u16, flits: u16, next: u16)
        requires { k < self.old.n }
        ensures { Becomes self.old self.new (put (kept self.old) k owner flits next) }
    {
        self.words[k as usize] = owner;
        self.words[self.n + (k as usize)] = flits;
        self.words[self.n + self.n + (k as usize)] = next;
    }

    /// Gives a channel a next.
    pub fn set_next(&mut self, k: u16, next: u16)
        requires { k < self.old.n }
        ensures { Becomes self.old self.new (link (kept self.old) k next) }
    {
        self.words[self.n + self.n + (k as usize)] = next;
    }

    /// Takes a flit out of a channel.
    pub fn drain(&mut self, k: u16)
        requires k_lt_n { k < self.old.n }
        requires k_nonzero { 0 < holds_of (kept self.old) k }
        ensures { Becomes self.old self.new (drain (kept self.old) k) }
    {
        self.words[self.n + (k as usize)] -= 1;
    }

    /// Puts a flit into a channel.
    pub fn fill(&mut self, k: u16)
        requires k_lt_n { k < self.old.n }
        requires k_bound { holds_of (kept self.old) k < 65535 }
        ensures { Becomes self.old self.new (fill (kept self.old) k) }
    {
        self.words[self.n + (k as usize)] += 1;
    }
}
