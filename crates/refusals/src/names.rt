// The names of the rows, for a host that shows them. On the rows of the table the two calls are inverse.
// No Option and no list to search: by the rules a row that is not there has the number 0 and the empty name, and both ways
// are literal cases.
ghost use Rattle.std.specs.Prelude.{◌≡◌, [], ◌≢◌};
ghost use Rattle.refusals.specs.Table.{named, numbered};

// The name of a row's number, empty where there is no such row.
pub fn name_of(number: u8) -> &'static str
    ensures is { result.now ≡ named number }
    ensures back { (result.now ≢ []) → numbered result.now ≡ number }
{
    match number {
        1 => "size",
        2 => "agenda",
        3 => "scheme",
        4 => "used",
        10 => "processor",
        11 => "item",
        12 => "faulty",
        13 => "sound",
        14 => "spare",
        15 => "moment",
        16 => "wait",
        17 => "sender",
        18 => "opened",
        19 => "value",
        20 => "offset",
        21 => "end",
        22 => "due",
        23 => "flight",
        30 => "frame",
        31 => "row",
        32 => "code",
        33 => "long",
        34 => "first",
        35 => "link",
        36 => "own",
        37 => "forged",
        38 => "early",
        39 => "late",
        40 => "closed",
        41 => "same",
        42 => "full",
        50 => "signer",
        51 => "text",
        52 => "room",
        60 => "line",
        _ => "",
    }
}

// The number of a row's name, 0 where there is no such row.
pub fn number_of(name: &str) -> u8
    ensures is { result ≡ numbered name.now }
    ensures back { (result ≢ 0) → named result ≡ name.now }
{
    match name {
        "size" => 1,
        "agenda" => 2,
        "scheme" => 3,
        "used" => 4,
        "processor" => 10,
        "item" => 11,
        "faulty" => 12,
        "sound" => 13,
        "spare" => 14,
        "moment" => 15,
        "wait" => 16,
        "sender" => 17,
        "opened" => 18,
        "value" => 19,
        "offset" => 20,
        "end" => 21,
        "due" => 22,
        "flight" => 23,
        "frame" => 30,
        "row" => 31,
        "code" => 32,
        "long" => 33,
        "first" => 34,
        "link" => 35,
        "own" => 36,
        "forged" => 37,
        "early" => 38,
        "late" => 39,
        "closed" => 40,
        "same" => 41,
        "full" => 42,
        "signer" => 50,
        "text" => 51,
        "room" => 52,
        "line" => 60,
        _ => 0,
    }
}
