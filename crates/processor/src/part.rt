// The state of one processor: its number, and a bag for each item.

// What a processor decides of an item. No Option: what is recorded is an `Option<Decision>`, whose `None` says undecided.
#[derive(Clone, Copy, Debug, PartialEq, Eq)]
pub enum Decision {
    Default,
    Value(u64),
}

// The values accepted for an item, or the decision that closed the bag.
#[derive(Clone, Copy, Debug, PartialEq, Eq)]
pub enum Bag {
    Empty,
    One(u64),
    Two(u64, u64),
    Closed(Decision),
}

// The bags lie in an array, which each call indexes: no heap here, and a bag that is lent would want a clause of its own.
// The plan and the kind are lent to each call: a bench has one for all its parts.
#[derive(Clone, Copy, Debug, PartialEq, Eq)]
pub struct Part {
    pub own: u8,
    pub bags: [Bag; 8],
}
