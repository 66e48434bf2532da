// What can be asked of a record store, what it answers, and why it refuses.
#![tactic(auto)]

ghost use Rattle.std.specs.Prelude.{◌≡◌};
ghost use Rattle.calls.specs.Numbers.{letter_of, number_of};

pub mod results;

// The fourteen calls. Places, references, words and units are counted from 0; a place is one of the holder's.
#[derive(Clone, Copy)]
pub enum Call {
    // a new record of so many nil references and zero words; the place names it
    Make {
        place: u32,
        references: u32,
        words: u32,
    },
    // a place gets a reference of the record in another
    Load {
        into: u32,
        from: u32,
        reference: u32,
    },
    // a reference of the record in a place gets what another place holds
    Store {
        into: u32,
        reference: u32,
        from: u32,
    },
    // a word of the record in a place
    Read {
        from: u32,
        word: u32,
    },
    // a word of the record in a place gets a value
    Write {
        into: u32,
        word: u32,
        value: u32,
    },
    // a place gets what another holds
    Copy {
        into: u32,
        from: u32,
    },
    // a place gets nil
    Clear {
        place: u32,
    },
    // whether two places name one record, or are both nil
    Same {
        left: u32,
        right: u32,
    },
    // how many references and words the record in a place has
    Shape {
        place: u32,
    },
    // an event at a time, for the record in a place
    Schedule {
        time: u32,
        place: u32,
    },
    // the first event goes: a place gets its record, the clock its time
    Next {
        into: u32,
    },
    // a collection begins
    Begin,
    // so many units of the collection
    Step {
        units: u32,
    },
    // how many blocks and pages there are of each sort
    Count,
}

// What a granted call answers.
#[derive(Clone, Copy)]
pub enum Answer {
    Done,
    Word(u32),
    Same(bool),
    Shape {
        references: u32,
        words: u32,
    },
    Time(u32),
    // the units done by this step, those done since the collection began, and whether it is unfinished
    Progress {
        done: u32,
        total: u32,
        unfinished: bool,
    },
    // current blocks, husks, uncut pages and closed pages
    Counts {
        current: u32,
        husks: u32,
        uncut: u32,
        closed: u32,
    },
}

// Why a call is refused, in the order in which the conditions count.
#[derive(Clone, Copy)]
pub enum Refusal {
    NoSuchPlace = 1,
    TooLarge = 2,
    NoCall = 3,
    Nil = 11,
    NoSuchReference = 12,
    NoSuchWord = 13,
    NoRoom = 14,
    AgendaFull = 15,
    TimePassed = 16,
    SerialsUsedUp = 17,
    NoEvent = 18,
    CollectionRuns = 19,
    NoCollection = 20,
}

impl Call {
    // The letter that a line of this call begins with.
    pub fn letter(&self) -> char
        ensures { result ≡ letter_of self.now }
    {
        match self {
            Call::Make { .. } => 'M',
            Call::Load { .. } => 'L',
            Call::Store { .. } => 'S',
            Call::Read { .. } => 'R',
            Call::Write { .. } => 'W',
            Call::Copy { .. } => 'C',
            Call::Clear { .. } => 'K',
            Call::Same { .. } => 'Q',
            Call::Shape { .. } => 'H',
            Call::Schedule { .. } => 'E',
            Call::Next { .. } => 'N',
            Call::Begin => 'B',
            Call::Step { .. } => 'G',
            Call::Count => 'T',
        }
    }
}

impl Refusal {
    // The number that a refused call returns.
    pub fn number(&self) -> u32
        ensures { result ≡ number_of self.now }
    {
        *self as u32
    }
}
