ghost use Rattle.std.specs.Prelude.{◌≡◌, map};
ghost use Rattle.net_fields.specs.Fields.{field_entry, fields_of};

use crate::field::Field;
use crate::form::Form;
use crate::word::Word;
use net_laboratory::{
    LAST_FAILING_CALL, MOST_AGGREGATED_ROUTES, MOST_FAILING_CALLS, MOST_LANE, MOST_LENGTH,
    MOST_MOMENT, MOST_ROUNDS,
};
use or_base::{
    MOST_INTERFACE_NAME_BYTES, MOST_LIFETIME, MOST_METRIC, MOST_NODE_NAME_BYTES, MOST_PREFERENCE,
    MOST_TTL_VERSION, MOST_VERSION,
};

/// What an object may say for a command, `do` first.
#[tactic(auto, unfolding(crate::specs::Fields::fields_of))]
pub fn fields_of(word: Word) -> &'static [Field]
    ensures { map field_entry result.now ≡ fields_of word }
{
    match word {
        Word::Lab => &LAB,
        Word::Node => &NODE,
        Word::Link => &LINK,
        Word::Settle => &SETTLE,
        Word::Tick => &TICK,
        Word::Set => &SET,
        Word::Own => &OWN,
        Word::Disown => &DISOWN,
        Word::Sync => &SYNC,
        Word::Restart => &RESTART,
        Word::Up => &UP,
        Word::Down => &DOWN,
        Word::Script => &SCRIPT,
        Word::Get => &GET,
        Word::Drain => &DRAIN,
        Word::LinkDrain => &LINK_DRAIN,
        Word::Metric => &METRIC,
        Word::Advertise => &ADVERTISE,
        Word::Withdraw => &WITHDRAW,
        Word::Aggregate => &AGGREGATE,
        Word::Ask => &ASK,
        Word::Turn => &TURN,
    }
}

// The ranges of numbers that several fields have.

const LIFETIME: Form = Form::Number {
    least: 1,
    most: MOST_LIFETIME,
};

const METRIC_RANGE: Form = Form::Number {
    least: 1,
    most: MOST_METRIC as u64,
};

const PREFERENCE: Form = Form::Number {
    least: 0,
    most: MOST_PREFERENCE as u64,
};

// The fields that several commands have.

const DO: Field = Field {
    name: "do",
    is_needed: true,
    form: Form::Text,
};

const AT_NODE: Field = Field {
    name: "node",
    is_needed: true,
    form: Form::Node,
};

const ON_LINK: Field = Field {
    name: "link",
    is_needed: true,
    form: Form::Link,
};

const KEY: Field = Field {
    name: "key",
    is_needed: true,
    form: Form::Key,
};

const PREFIX: Field = Field {
    name: "prefix",
    is_needed: true,
    form: Form::Prefix,
};

const ON: Field = Field {
    name: "on",
    is_needed: true,
    form: Form::Flag,
};

const HEX: Field = Field {
    name: "hex",
    is_needed: false,
    form: Form::Hex,
};

const TEXT: Field = Field {
    name: "text",
    is_needed: false,
    form: Form::Text,
};

const TTL: Field = Field {
    name: "ttl",
    is_needed: false,
    form: LIFETIME,
};

// The fields of each command.

static LAB: [Field; 3] = [
    DO,
    Field {
        name: "kind",
        is_needed: true,
        form: Form::Kind,
    },
    TTL,
];

static NODE: [Field; 3] = [
    DO,
    Field {
        name: "name",
        is_needed: true,
        form: Form::Name {
            longest: MOST_NODE_NAME_BYTES as u64,
        },
    },
    Field {
        name: "faults",
        is_needed: false,
        form: Form::Numbers {
            count: MOST_FAILING_CALLS,
            least: 1,
            most: LAST_FAILING_CALL,
        },
    },
];

static LINK: [Field; 7] = [
    DO,
    Field {
        name: "a",
        is_needed: true,
        form: Form::Node,
    },
    Field {
        name: "b",
        is_needed: true,
        form: Form::Node,
    },
    Field {
        name: "aif",
        is_needed: false,
        form: Form::Name {
            longest: MOST_INTERFACE_NAME_BYTES as u64,
        },
    },
    Field {
        name: "bif",
        is_needed: false,
        form: Form::Name {
            longest: MOST_INTERFACE_NAME_BYTES as u64,
        },
    },
    Field {
        name: "am",
        is_needed: false,
        form: METRIC_RANGE,
    },
    Field {
        name: "bm",
        is_needed: false,
        form: METRIC_RANGE,
    },
];

static SETTLE: [Field; 3] = [
    DO,
    Field {
        name: "rounds",
        is_needed: false,
        form: Form::Number {
            least: 1,
            most: MOST_ROUNDS,
        },
    },
    Field {
        name: "show",
        is_needed: false,
        form: Form::Show,
    },
];

static TICK: [Field; 2] = [
    DO,
    Field {
        name: "to",
        is_needed: true,
        form: Form::Number {
            least: 0,
            most: MOST_MOMENT,
        },
    },
];

static SET: [Field; 9] = [
    DO,
    AT_NODE,
    KEY,
    Field {
        name: "version",
        is_needed: true,
        form: Form::Number {
            least: 1,
            most: MOST_VERSION,
        },
    },
    HEX,
    TEXT,
    Field {
        name: "originator",
        is_needed: false,
        form: Form::Name {
            longest: MOST_NODE_NAME_BYTES as u64,
        },
    },
    TTL,
    Field {
        name: "ttlv",
        is_needed: false,
        form: Form::Number {
            least: 0,
            most: MOST_TTL_VERSION,
        },
    },
];

static OWN: [Field; 6] = [DO, AT_NODE, KEY, HEX, TEXT, TTL];

static DISOWN: [Field; 3] = [DO, AT_NODE, KEY];

static SYNC: [Field; 3] = [DO, AT_NODE, ON_LINK];

static RESTART: [Field; 2] = [DO, AT_NODE];

static UP: [Field; 2] = [DO, ON_LINK];

static DOWN: [Field; 2] = [DO, ON_LINK];

static SCRIPT: [Field; 4] = [
    DO,
    ON_LINK,
    Field {
        name: "from",
        is_needed: true,
        form: Form::Node,
    },
    Field {
        name: "acts",
        is_needed: true,
        form: Form::Acts,
    },
];

static GET: [Field; 3] = [DO, AT_NODE, KEY];

static DRAIN: [Field; 3] = [DO, AT_NODE, ON];

static LINK_DRAIN: [Field; 4] = [DO, AT_NODE, ON_LINK, ON];

static METRIC: [Field; 4] = [
    DO,
    AT_NODE,
    ON_LINK,
    Field {
        name: "metric",
        is_needed: true,
        form: METRIC_RANGE,
    },
];

static ADVERTISE: [Field; 6] = [
    DO,
    AT_NODE,
    PREFIX,
    Field {
        name: "path",
        is_needed: false,
        form: PREFERENCE,
    },
    Field {
        name: "source",
        is_needed: false,
        form: PREFERENCE,
    },
    Field {
        name: "distance",
        is_needed: false,
        form: PREFERENCE,
    },
];

static WITHDRAW: [Field; 3] = [DO, AT_NODE, PREFIX];

static AGGREGATE: [Field; 4] = [
    DO,
    AT_NODE,
    PREFIX,
    Field {
        name: "min",
        is_needed: true,
        form: Form::Number {
            least: 1,
            most: MOST_AGGREGATED_ROUTES,
        },
    },
];

static ASK: [Field; 3] = [DO, AT_NODE, PREFIX];

static TURN: [Field; 3] = [
    DO,
    Field {
        name: "lane",
        is_needed: true,
        form: Form::Number {
            least: 0,
            most: MOST_LANE,
        },
    },
    Field {
        name: "at",
        is_needed: true,
        form: Form::Number {
            least: 0,
            most: MOST_LENGTH,
        },
    },
];
