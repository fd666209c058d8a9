ghost use Rattle.lines.specs.Grammar.{NamedIn, kinds, schemes};

use std::str::FromStr;

// A line of a run script that was read.
#[derive(Debug, Drop)]
pub enum Line {
    Bench {
        n: u32,
        f: u32,
        d: u32,
        e: u32,
    },
    Item {
        sender: u32,
        reading: u32,
    },
    Start {
        kind: KindWord,
        scheme: SchemeWord,
    },
    Set {
        processor: u32,
        offset: u32,
    },
    Turn {
        processor: u32,
    },
    Advance {
        ticks: u32,
    },
    Seal {
        processor: u32,
        text: Vec<u8>,
    },
    Open {
        processor: u32,
        item: u32,
        value: u64,
    },
    Inject {
        from: u32,
        to: u32,
        bytes: Vec<u8>,
    },
    Deliver {
        flight: u32,
        processor: u32,
    },
    Decide {
        processor: u32,
        item: u32,
    },
}

#[derive(Clone, Copy, Debug, PartialEq, Eq)]
pub enum KindWord {
    Setpoint,
    Step,
}

#[derive(Clone, Copy, Debug, PartialEq, Eq)]
pub enum SchemeWord {
    Ledger,
    Deck,
}

// A word that names no kind or scheme.
#[derive(Clone, Copy, Debug, PartialEq, Eq)]
pub struct UnknownWord;

impl FromStr for KindWord {
    type Err = UnknownWord;

    ghost from_str_gives = { NamedIn kinds };

    fn from_str(word: &str) -> Result<KindWord, UnknownWord> {
        match word {
            "setpoint" => Ok(KindWord::Setpoint),
            "step" => Ok(KindWord::Step),
            _ => Err(UnknownWord),
        }
    }
}

impl FromStr for SchemeWord {
    type Err = UnknownWord;

    ghost from_str_gives = { NamedIn schemes };

    fn from_str(word: &str) -> Result<SchemeWord, UnknownWord> {
        match word {
            "ledger" => Ok(SchemeWord::Ledger),
            "deck" => Ok(SchemeWord::Deck),
            _ => Err(UnknownWord),
        }
    }
}
