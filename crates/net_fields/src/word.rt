ghost use Rattle.std.specs.Prelude.{◌≡◌};
ghost use Rattle.net_fields.specs.Word.{word_of, is_for_full};

/// A command of the language.
#[derive(Clone, Copy, Debug, PartialEq, Eq)]
pub enum Word {
    Lab,
    Node,
    Link,
    Settle,
    Tick,
    Set,
    Own,
    Disown,
    Sync,
    Restart,
    Up,
    Down,
    Script,
    Get,
    Drain,
    LinkDrain,
    Metric,
    Advertise,
    Withdraw,
    Aggregate,
    Ask,
    Turn,
}

/// The command of this name.
#[tactic(auto, unfolding(crate::specs::Word::word_of))]
pub fn word_of(name: &str) -> Option<Word>
    ensures { result ≡ word_of name.now }
{
    match name {
        "lab" => Some(Word::Lab),
        "node" => Some(Word::Node),
        "link" => Some(Word::Link),
        "settle" => Some(Word::Settle),
        "tick" => Some(Word::Tick),
        "set" => Some(Word::Set),
        "own" => Some(Word::Own),
        "disown" => Some(Word::Disown),
        "sync" => Some(Word::Sync),
        "restart" => Some(Word::Restart),
        "up" => Some(Word::Up),
        "down" => Some(Word::Down),
        "script" => Some(Word::Script),
        "get" => Some(Word::Get),
        "drain" => Some(Word::Drain),
        "linkdrain" => Some(Word::LinkDrain),
        "metric" => Some(Word::Metric),
        "advertise" => Some(Word::Advertise),
        "withdraw" => Some(Word::Withdraw),
        "aggregate" => Some(Word::Aggregate),
        "ask" => Some(Word::Ask),
        "turn" => Some(Word::Turn),
        _ => None,
    }
}

/// The command belongs to full laboratories.
pub fn is_for_full(word: Word) -> bool
    ensures { result ≡ is_for_full word }
{
    matches!(
        word,
        Word::Drain
            | Word::LinkDrain
            | Word::Metric
            | Word::Advertise
            | Word::Withdraw
            | Word::Aggregate
            | Word::Ask
    )
}
