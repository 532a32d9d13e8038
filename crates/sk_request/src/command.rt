// The commands by their words, and what each takes.
ghost use Rattle.std.specs.Prelude.{◌≡◌, IfSome, IfNone};
ghost use Rattle.sk_request.specs.Asking.{orders, limits, places, makes, traits, account_keys, orders_by, limits_by, places_by};
ghost use Rattle.sk_request.specs.declared.command.Command.{Command as AnyCommand};
ghost use Rattle.sk_request.specs.Commands.{command_word};

/// What a command reports of a sketch, whatever its verdict.
#[derive(Clone, Copy, Debug, PartialEq, Eq)]
pub enum Account {
    /// Its verdict, and its parts.
    Judged,
    /// The sketch itself, in the second version of its language.
    Migrated,
    /// The constraints that may go.
    Spares,
    /// The clusters that merging by derived angles besides leads to.
    Derived,
    /// Its verdict, and its parts, each placed by itself.
    Shapes,
    /// Its parts that are over, and by how much each says too much.
    Excesses,
    /// Its parts that are over, and against which constraints each that is left out is too many.
    Reasons,
}

/// What the program does.
#[derive(Clone, Copy, Debug, PartialEq, Eq)]
pub enum Command {
    /// Reports this of a sketch, whatever its verdict.
    Tell(Account),
    /// Plans the construction of a sketch.
    Plan,
    /// Places the elements of a sketch.
    Solve,
    /// Places the elements of a sketch, and draws them.
    Dxf,
    /// Answers merges that workers offer, and judges the sketch.
    Offers,
    /// Answers commands that edit a sketch, one after another.
    Session,
    /// Makes a sketch of so many elements, places them, and sums up where they lie.
    Grow(u32),
    /// Checks the claim behind a sketch: steps, places and tolerances.
    Verify,
    /// Turns choices of a sketch's plan over, and places its elements so.
    Flips,
    /// Answers commands that edit a sketch, each before the next is asked for.
    Live,
    /// Adds the constraints that a sketch lacks, with the values that are drawn.
    Complete,
    /// Measures how far the places behind a sketch are off.
    Measure,
}

/// Which keys a command takes beside the size of a sketch that it makes.
#[derive(Clone, Copy, Debug, PartialEq, Eq)]
pub(crate) enum KeySet {
    /// No key.
    NoKeys,
    /// The limit of tolerance.
    Limiting,
    /// The order in which to merge.
    Ordering,
    /// The order, and how elements are placed: the grid, the limit, what places are, and their frame.
    Placing,
}

impl KeySet {
    fn orders(self) -> bool
        ensures { result ≡ orders_by self }
    {
        match self {
            KeySet::NoKeys | KeySet::Limiting => false,
            KeySet::Ordering | KeySet::Placing => true,
        }
    }

    fn limits(self) -> bool
        ensures { result ≡ limits_by self }
    {
        match self {
            KeySet::NoKeys | KeySet::Ordering => false,
            KeySet::Limiting | KeySet::Placing => true,
        }
    }

    fn places(self) -> bool
        ensures { result ≡ places_by self }
    {
        match self {
            KeySet::NoKeys | KeySet::Limiting | KeySet::Ordering => false,
            KeySet::Placing => true,
        }
    }
}

/// What a command takes: its keys, and whether it makes its sketch.
#[derive(Clone, Copy, Debug, PartialEq, Eq)]
pub(crate) struct Traits {
    pub(crate) keys: KeySet,
    /// It makes its sketch, and so takes a size, which it needs, and no input.
    pub(crate) makes: bool,
}

impl Account {
    /// Which keys its command takes.
    fn keys(self) -> KeySet
        ensures { result ≡ account_keys self }
    {
        match self {
            Account::Judged | Account::Derived => KeySet::Ordering,
            Account::Migrated | Account::Spares | Account::Reasons => KeySet::NoKeys,
            Account::Shapes | Account::Excesses => KeySet::Placing,
        }
    }
}

impl Command {
    /// What it takes.
    pub(crate) fn traits(self) -> Traits
        ensures { result ≡ traits self }
    {
        let (keys, makes) = match self {
            Command::Tell(account) => (account.keys(), false),
            Command::Plan | Command::Offers => (KeySet::Ordering, false),
            Command::Solve | Command::Dxf | Command::Flips => (KeySet::Placing, false),
            Command::Session | Command::Live => (KeySet::Placing, false),
            Command::Grow(_) => (KeySet::Placing, true),
            Command::Verify | Command::Complete => (KeySet::NoKeys, false),
            Command::Measure => (KeySet::Limiting, false),
        };
        Traits { keys, makes }
    }

    /// Whether it is told in which order to merge.
    pub(crate) fn orders(self) -> bool
        ensures { result ≡ orders self }
    {
        self.traits().keys.orders()
    }

    /// Whether it measures where elements lie, and so takes a limit.
    pub(crate) fn limits(self) -> bool
        ensures { result ≡ limits self }
    {
        self.traits().keys.limits()
    }

    /// Whether it places elements, and so takes a grid, what places are and their frame.
    pub(crate) fn places(self) -> bool
        ensures { result ≡ places self }
    {
        self.traits().keys.places()
    }

    /// Whether it makes its sketch, and so takes a size and no input.
    pub fn makes(self) -> bool
        ensures { result ≡ makes self }
    {
        self.traits().makes
    }
}

/// The command that the word names. The size of `grow` is 0 here: its key is read later.
pub(crate) fn command_of(word: &str) -> Option<Command>
    ensures some { IfSome result (λ command. word.now ≡ command_word command) }
    ensures none { IfNone result ((command : AnyCommand) → word.now ≡ command_word command → ⊥) }
{
    if word == "check" {
        Some(Command::Tell(Account::Judged))
    } else if word == "plan" {
        Some(Command::Plan)
    } else if word == "solve" {
        Some(Command::Solve)
    } else if word == "dxf" {
        Some(Command::Dxf)
    } else if word == "offers" {
        Some(Command::Offers)
    } else if word == "session" {
        Some(Command::Session)
    } else if word == "grow" {
        Some(Command::Grow(0))
    } else if word == "migrate" {
        Some(Command::Tell(Account::Migrated))
    } else if word == "verify" {
        Some(Command::Verify)
    } else if word == "spare" {
        Some(Command::Tell(Account::Spares))
    } else if word == "flips" {
        Some(Command::Flips)
    } else if word == "derive" {
        Some(Command::Tell(Account::Derived))
    } else if word == "parts" {
        Some(Command::Tell(Account::Shapes))
    } else if word == "live" {
        Some(Command::Live)
    } else if word == "excess" {
        Some(Command::Tell(Account::Excesses))
    } else if word == "complete" {
        Some(Command::Complete)
    } else if word == "measure" {
        Some(Command::Measure)
    } else if word == "why" {
        Some(Command::Tell(Account::Reasons))
    } else {
        None
    }
}
