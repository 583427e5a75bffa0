ghost use Rattle.std.specs.Prelude.{◌≡◌};
ghost use Rattle.net_scenario.specs.FaultKinds.{fault_number, fault_name};

use or_base::NoMemory;

/// What is wrong with a line, in the order of the numbers from 1.
#[derive(Clone, Copy, Debug, PartialEq, Eq)]
pub enum FaultKind {
    /// The line isn't UTF-8.
    NotText,
    /// It is no JSON object.
    BadJson,
    /// It stands before the line of the laboratory.
    NoLab,
    /// It names no command.
    UnknownCommand,
    /// A field that must be there isn't.
    MissingField,
    /// A field isn't one of the command, or has a value that it doesn't take.
    BadField,
    /// A node or a link isn't declared.
    UnknownName,
    /// A name or an interface is taken.
    RepeatedName,
    /// A key has another owner.
    TwoOwners,
    /// There are more of something than there may be.
    TooMany,
    /// A text, the line or the scenario is too long.
    TooLong,
    /// A prefix is none.
    BadPrefix,
    /// A script is none.
    BadScript,
    /// The kind of laboratory, or this place, doesn't have the command.
    WrongKind,
}

impl FaultKind {
    /// The number of the fault, 1 to 14.
    pub fn number(self) -> u64
        ensures { result ≡ fault_number self }
    {
        match self {
            FaultKind::NotText => 1,
            FaultKind::BadJson => 2,
            FaultKind::NoLab => 3,
            FaultKind::UnknownCommand => 4,
            FaultKind::MissingField => 5,
            FaultKind::BadField => 6,
            FaultKind::UnknownName => 7,
            FaultKind::RepeatedName => 8,
            FaultKind::TwoOwners => 9,
            FaultKind::TooMany => 10,
            FaultKind::TooLong => 11,
            FaultKind::BadPrefix => 12,
            FaultKind::BadScript => 13,
            FaultKind::WrongKind => 14,
        }
    }

    /// Its name.
    pub fn name(self) -> &'static str
        ensures { result.now ≡ fault_name self }
    {
        match self {
            FaultKind::NotText => "NotText",
            FaultKind::BadJson => "BadJson",
            FaultKind::NoLab => "NoLab",
            FaultKind::UnknownCommand => "UnknownCommand",
            FaultKind::MissingField => "MissingField",
            FaultKind::BadField => "BadField",
            FaultKind::UnknownName => "UnknownName",
            FaultKind::RepeatedName => "RepeatedName",
            FaultKind::TwoOwners => "TwoOwners",
            FaultKind::TooMany => "TooMany",
            FaultKind::TooLong => "TooLong",
            FaultKind::BadPrefix => "BadPrefix",
            FaultKind::BadScript => "BadScript",
            FaultKind::WrongKind => "WrongKind",
        }
    }
}

/// The first faulty line of a scenario, from 1, and the fault that it has; of several, the one with the lowest number.
#[derive(Clone, Copy, Debug, PartialEq, Eq)]
pub struct ScenarioFault {
    pub line: u64,
    pub kind: FaultKind,
}

/// Why no scenario was read.
#[derive(Clone, Copy, Debug, PartialEq, Eq)]
pub enum ReadRefusal {
    /// The bytes are none.
    Fault(ScenarioFault),
    /// Memory ran out.
    NoMemory,
}

impl From<NoMemory> for ReadRefusal {
    ghost use Rattle.std.specs.Prelude.{◌≡◌};
    ghost use Rattle.net_scenario.specs.declared.fault.ReadRefusal.TheVariants as whole;

    ghost from_gives = { λ _ e. e ≡ whole.NoMemory };

    fn from(_error: NoMemory) -> ReadRefusal {
        ReadRefusal::NoMemory
    }
}

/// Why a line was not read.
#[derive(Clone, Copy, Debug, PartialEq, Eq)]
pub enum LineRefusal {
    /// It has this fault; of several, the one with the lowest number.
    Fault { kind: FaultKind },
    /// Memory ran out.
    NoMemory,
}

impl From<NoMemory> for LineRefusal {
    ghost use Rattle.std.specs.Prelude.{◌≡◌};
    ghost use Rattle.net_scenario.specs.declared.fault.LineRefusal.TheVariants as refusal;

    ghost from_gives = { λ _ e. e ≡ refusal.NoMemory };

    fn from(_error: NoMemory) -> LineRefusal {
        LineRefusal::NoMemory
    }
}
