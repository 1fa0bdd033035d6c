// The rows of the five set tables, each written once, and the tables as arrays of them in the printed order.
// M_ is a required label, K_ one that is not, N_ one that repeats, as the documents mark them.
use meaning::Row;

// The header of a label that stands at set level.
const SET_LEVEL: u16 = 0;

// At set level, once, required.
pub const M_3000: Row = Row {
    label: 3000,
    under: SET_LEVEL,
    many: false,
    required: true,
};

pub const M_3101: Row = Row {
    label: 3101,
    under: SET_LEVEL,
    many: false,
    required: true,
};

pub const M_3102: Row = Row {
    label: 3102,
    under: SET_LEVEL,
    many: false,
    required: true,
};

pub const M_3103: Row = Row {
    label: 3103,
    under: SET_LEVEL,
    many: false,
    required: true,
};

pub const M_8000: Row = Row {
    label: 8000,
    under: SET_LEVEL,
    many: false,
    required: true,
};

pub const M_8100: Row = Row {
    label: 8100,
    under: SET_LEVEL,
    many: false,
    required: true,
};

pub const M_8402: Row = Row {
    label: 8402,
    under: SET_LEVEL,
    many: false,
    required: true,
};

pub const M_9218: Row = Row {
    label: 9218,
    under: SET_LEVEL,
    many: false,
    required: true,
};

// At set level, once, not required.
pub const K_102: Row = Row {
    label: 102,
    under: SET_LEVEL,
    many: false,
    required: false,
};

pub const K_103: Row = Row {
    label: 103,
    under: SET_LEVEL,
    many: false,
    required: false,
};

pub const K_132: Row = Row {
    label: 132,
    under: SET_LEVEL,
    many: false,
    required: false,
};

pub const K_3100: Row = Row {
    label: 3100,
    under: SET_LEVEL,
    many: false,
    required: false,
};

pub const K_3101: Row = Row {
    label: 3101,
    under: SET_LEVEL,
    many: false,
    required: false,
};

pub const K_3102: Row = Row {
    label: 3102,
    under: SET_LEVEL,
    many: false,
    required: false,
};

pub const K_3103: Row = Row {
    label: 3103,
    under: SET_LEVEL,
    many: false,
    required: false,
};

pub const K_3104: Row = Row {
    label: 3104,
    under: SET_LEVEL,
    many: false,
    required: false,
};

pub const K_3105: Row = Row {
    label: 3105,
    under: SET_LEVEL,
    many: false,
    required: false,
};

pub const K_3106: Row = Row {
    label: 3106,
    under: SET_LEVEL,
    many: false,
    required: false,
};

pub const K_3107: Row = Row {
    label: 3107,
    under: SET_LEVEL,
    many: false,
    required: false,
};

pub const K_3108: Row = Row {
    label: 3108,
    under: SET_LEVEL,
    many: false,
    required: false,
};

pub const K_3110: Row = Row {
    label: 3110,
    under: SET_LEVEL,
    many: false,
    required: false,
};

pub const K_3622: Row = Row {
    label: 3622,
    under: SET_LEVEL,
    many: false,
    required: false,
};

pub const K_3623: Row = Row {
    label: 3623,
    under: SET_LEVEL,
    many: false,
    required: false,
};

pub const K_3628: Row = Row {
    label: 3628,
    under: SET_LEVEL,
    many: false,
    required: false,
};

pub const K_6200: Row = Row {
    label: 6200,
    under: SET_LEVEL,
    many: false,
    required: false,
};

pub const K_6201: Row = Row {
    label: 6201,
    under: SET_LEVEL,
    many: false,
    required: false,
};

pub const K_8315: Row = Row {
    label: 8315,
    under: SET_LEVEL,
    many: false,
    required: false,
};

pub const K_8316: Row = Row {
    label: 8316,
    under: SET_LEVEL,
    many: false,
    required: false,
};

pub const K_8402: Row = Row {
    label: 8402,
    under: SET_LEVEL,
    many: false,
    required: false,
};

pub const K_8990: Row = Row {
    label: 8990,
    under: SET_LEVEL,
    many: false,
    required: false,
};

pub const K_9206: Row = Row {
    label: 9206,
    under: SET_LEVEL,
    many: false,
    required: false,
};

// "In 6302 sets 8410 is a plain single field. In 6311 sets 8432 and 8439 are plain single fields."
pub const PLAIN_8410: Row = Row {
    label: 8410,
    under: SET_LEVEL,
    many: false,
    required: false,
};

pub const PLAIN_8432: Row = Row {
    label: 8432,
    under: SET_LEVEL,
    many: false,
    required: false,
};

pub const PLAIN_8439: Row = Row {
    label: 8439,
    under: SET_LEVEL,
    many: false,
    required: false,
};

// At set level, any number of times: the headers 6302 and 8410 and the names, which 6330 stands for, among them.
pub const N_6205: Row = Row {
    label: 6205,
    under: SET_LEVEL,
    many: true,
    required: false,
};

pub const N_6220: Row = Row {
    label: 6220,
    under: SET_LEVEL,
    many: true,
    required: false,
};

pub const N_6221: Row = Row {
    label: 6221,
    under: SET_LEVEL,
    many: true,
    required: false,
};

pub const N_6226: Row = Row {
    label: 6226,
    under: SET_LEVEL,
    many: true,
    required: false,
};

pub const N_6227: Row = Row {
    label: 6227,
    under: SET_LEVEL,
    many: true,
    required: false,
};

pub const N_6228: Row = Row {
    label: 6228,
    under: SET_LEVEL,
    many: true,
    required: false,
};

pub const N_6302: Row = Row {
    label: 6302,
    under: SET_LEVEL,
    many: true,
    required: false,
};

pub const N_6330: Row = Row {
    label: 6330,
    under: SET_LEVEL,
    many: true,
    required: false,
};

pub const N_8410: Row = Row {
    label: 8410,
    under: SET_LEVEL,
    many: true,
    required: false,
};

// "6303, 6304 and 6305 are its members, each required once."
pub const M_6303: Row = Row {
    label: 6303,
    under: 6302,
    many: false,
    required: true,
};

pub const M_6304: Row = Row {
    label: 6304,
    under: 6302,
    many: false,
    required: true,
};

pub const M_6305: Row = Row {
    label: 6305,
    under: 6302,
    many: false,
    required: true,
};

// The odd labels, which 6331 stands for: required once after their name.
pub const M_6331: Row = Row {
    label: 6331,
    under: 6330,
    many: false,
    required: true,
};

// The members of 8410, at most once in a group.
pub const K_8411: Row = Row {
    label: 8411,
    under: 8410,
    many: false,
    required: false,
};

pub const K_8418: Row = Row {
    label: 8418,
    under: 8410,
    many: false,
    required: false,
};

pub const K_8420: Row = Row {
    label: 8420,
    under: 8410,
    many: false,
    required: false,
};

pub const K_8421: Row = Row {
    label: 8421,
    under: 8410,
    many: false,
    required: false,
};

pub const K_8428: Row = Row {
    label: 8428,
    under: 8410,
    many: false,
    required: false,
};

pub const K_8429: Row = Row {
    label: 8429,
    under: 8410,
    many: false,
    required: false,
};

pub const K_8430: Row = Row {
    label: 8430,
    under: 8410,
    many: false,
    required: false,
};

pub const K_8432: Row = Row {
    label: 8432,
    under: 8410,
    many: false,
    required: false,
};

pub const K_8437: Row = Row {
    label: 8437,
    under: 8410,
    many: false,
    required: false,
};

pub const K_8439: Row = Row {
    label: 8439,
    under: 8410,
    many: false,
    required: false,
};

pub const K_8460: Row = Row {
    label: 8460,
    under: 8410,
    many: false,
    required: false,
};

pub const K_8461: Row = Row {
    label: 8461,
    under: 8410,
    many: false,
    required: false,
};

pub const K_8462: Row = Row {
    label: 8462,
    under: 8410,
    many: false,
    required: false,
};

// The members of 8410 that repeat in a group.
pub const N_8431: Row = Row {
    label: 8431,
    under: 8410,
    many: true,
    required: false,
};

pub const N_8438: Row = Row {
    label: 8438,
    under: 8410,
    many: true,
    required: false,
};

pub const N_8470: Row = Row {
    label: 8470,
    under: 8410,
    many: true,
    required: false,
};

pub const N_8480: Row = Row {
    label: 8480,
    under: 8410,
    many: true,
    required: false,
};

// The table of 6300.
pub const ROWS_6300: [Row; 7] = [M_8000, M_8100, K_8315, K_8316, K_9206, M_9218, M_3000];

// The table of 6301.
pub const ROWS_6301: [Row; 20] = [
    M_8000, M_8100, K_8315, K_8316, K_9206, M_9218, M_3000, K_3100, M_3101, M_3102, M_3103, K_3104,
    K_3105, K_3106, K_3107, K_3108, K_3110, K_3622, K_3623, K_3628,
];

// The table of 6302.
pub const ROWS_6302: [Row; 25] = [
    M_8000, M_8100, K_8315, K_8316, K_9206, M_9218, K_102, K_103, K_132, M_3000, K_3100, M_3101,
    M_3102, M_3103, K_3104, K_3105, K_3106, K_3107, K_3108, K_3110, K_3622, K_3623, K_3628, K_8402,
    PLAIN_8410,
];

// The table of 6310.
pub const ROWS_6310: [Row; 57] = [
    M_8000, M_8100, K_8315, K_8316, K_9206, M_9218, K_102, K_103, K_132, M_3000, K_3100, K_3101,
    K_3102, K_3103, K_3104, K_3105, K_3106, K_3107, K_3108, K_3110, K_3622, K_3623, K_3628, M_8402,
    K_6200, K_6201, N_6205, N_6220, N_6221, N_6227, N_6226, N_6228, N_6302, M_6303, M_6304, M_6305,
    N_6330, M_6331, N_8410, K_8411, K_8428, K_8429, K_8430, N_8431, K_8437, N_8438, K_8418, K_8420,
    K_8421, K_8432, K_8439, K_8460, K_8461, K_8462, N_8470, N_8480, K_8990,
];

// The table of 6311.
pub const ROWS_6311: [Row; 17] = [
    M_8000, M_8100, K_8315, K_8316, K_9206, M_9218, M_3000, K_3100, K_3101, K_3102, K_3103, K_3104,
    K_6200, K_6201, K_8402, PLAIN_8432, PLAIN_8439,
];
