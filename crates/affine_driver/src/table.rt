// The commands of the program and their options: the one place where a command or an option is switched on.
//
// What is `Unbuilt` is refused, as words that ask for nothing. To build a command means to write its arm of `answer_of` and its
// clauses in `specs/`, and to say `Built` here.
use Standing::{Built, Unbuilt};
use command_words::{CommandOption, Standing, Takes};

pub const CHECK: Standing = Built;

pub const REGIONS: Standing = Built;

pub const REGIONS_DEPTH: Standing = Built;

pub const STAGE: Standing = Built;

pub const STAGE_DEPTH: Standing = Built;

pub const STAGE_DMA: Standing = Built;

pub const STAGE_DOUBLE: Standing = Unbuilt;

pub const STAGE_BUFFERS: Standing = Unbuilt;

pub const STAGE_CAPACITY: Standing = Built;

pub const PLAIN: Standing = Built;

pub const RUN: Standing = Built;

pub const RUN_CAPACITY: Standing = Built;

pub const RUN_FILLER: Standing = Built;

pub const RUN_ENGINES: Standing = Built;

pub const ORDER: Standing = Built;

pub const ORDER_CAPACITY: Standing = Built;

pub const ORDER_FILLER: Standing = Built;

pub const ORDER_ENGINES: Standing = Built;

pub const ORDER_PICK: Standing = Built;

pub const BOTH: Standing = Built;

pub const BOTH_DEPTH: Standing = Built;

pub const BOTH_DMA: Standing = Built;

pub const BOTH_DOUBLE: Standing = Unbuilt;

pub const BOTH_BUFFERS: Standing = Unbuilt;

pub const BOTH_CAPACITY: Standing = Built;

pub const BOTH_FILLER: Standing = Built;

pub const BOTH_ENGINES: Standing = Built;

pub const SAMPLE: Standing = Unbuilt;

pub const SAMPLE_NUMBER: Standing = Unbuilt;

/// How many loops may stand round a staged loop.
pub const DEPTH: Takes = Takes::Number {
    least: 0,
    most: 7,
    default: 0,
};
/// How many buffers a doubled memref has.
pub const BUFFERS: Takes = Takes::Number {
    least: 2,
    most: 8,
    default: 2,
};
/// The bytes of fast memory.
pub const CAPACITY: Takes = Takes::Number {
    least: 1,
    most: 67_108_864,
    default: 1_048_576,
};
/// What fast memory holds before anything is stored there.
pub const FILLER: Takes = Takes::Number {
    least: i64::MIN,
    most: i64::MAX,
    default: 0,
};
/// The engines, that of the compute thread counted.
pub const ENGINES: Takes = Takes::Number {
    least: 1,
    most: 16,
    default: 2,
};
/// The number from which an order of steps is drawn.
pub const PICK: Takes = Takes::Number {
    least: 0,
    most: i64::MAX,
    default: 0,
};
/// The number of a sample.
pub const NUMBER: Takes = Takes::Number {
    least: 0,
    most: 999_999,
    default: 0,
};

pub(crate) static REGIONS_OPTIONS: [CommandOption<'static>; 1] = [CommandOption {
    name: "depth",
    takes: DEPTH,
    needs: None,
    standing: REGIONS_DEPTH,
}];

pub(crate) static STAGE_OPTIONS: [CommandOption<'static>; 5] = [
    CommandOption {
        name: "depth",
        takes: DEPTH,
        needs: None,
        standing: STAGE_DEPTH,
    },
    CommandOption {
        name: "dma",
        takes: Takes::Flag,
        needs: None,
        standing: STAGE_DMA,
    },
    CommandOption {
        name: "double",
        takes: Takes::Flag,
        needs: Some("dma"),
        standing: STAGE_DOUBLE,
    },
    CommandOption {
        name: "buffers",
        takes: BUFFERS,
        needs: Some("double"),
        standing: STAGE_BUFFERS,
    },
    CommandOption {
        name: "capacity",
        takes: CAPACITY,
        needs: None,
        standing: STAGE_CAPACITY,
    },
];

pub(crate) static RUN_OPTIONS: [CommandOption<'static>; 3] = [
    CommandOption {
        name: "capacity",
        takes: CAPACITY,
        needs: None,
        standing: RUN_CAPACITY,
    },
    CommandOption {
        name: "filler",
        takes: FILLER,
        needs: None,
        standing: RUN_FILLER,
    },
    CommandOption {
        name: "engines",
        takes: ENGINES,
        needs: None,
        standing: RUN_ENGINES,
    },
];

pub(crate) static ORDER_OPTIONS: [CommandOption<'static>; 4] = [
    CommandOption {
        name: "capacity",
        takes: CAPACITY,
        needs: None,
        standing: ORDER_CAPACITY,
    },
    CommandOption {
        name: "filler",
        takes: FILLER,
        needs: None,
        standing: ORDER_FILLER,
    },
    CommandOption {
        name: "engines",
        takes: ENGINES,
        needs: None,
        standing: ORDER_ENGINES,
    },
    CommandOption {
        name: "pick",
        takes: PICK,
        needs: None,
        standing: ORDER_PICK,
    },
];

pub(crate) static BOTH_OPTIONS: [CommandOption<'static>; 7] = [
    CommandOption {
        name: "depth",
        takes: DEPTH,
        needs: None,
        standing: BOTH_DEPTH,
    },
    CommandOption {
        name: "dma",
        takes: Takes::Flag,
        needs: None,
        standing: BOTH_DMA,
    },
    CommandOption {
        name: "double",
        takes: Takes::Flag,
        needs: Some("dma"),
        standing: BOTH_DOUBLE,
    },
    CommandOption {
        name: "buffers",
        takes: BUFFERS,
        needs: Some("double"),
        standing: BOTH_BUFFERS,
    },
    CommandOption {
        name: "capacity",
        takes: CAPACITY,
        needs: None,
        standing: BOTH_CAPACITY,
    },
    CommandOption {
        name: "filler",
        takes: FILLER,
        needs: None,
        standing: BOTH_FILLER,
    },
    CommandOption {
        name: "engines",
        takes: ENGINES,
        needs: None,
        standing: BOTH_ENGINES,
    },
];

pub(crate) static SAMPLE_OPTIONS: [CommandOption<'static>; 1] = [CommandOption {
    name: "number",
    takes: NUMBER,
    needs: None,
    standing: SAMPLE_NUMBER,
}];
