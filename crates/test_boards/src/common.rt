// What the boards of a case have in common. Each board that is read is compared with the first one that is.
use crate::board::Board;
use model::{MAX_POINTS, Refusal};

// Whether a board is read, the working frequencies and the refusal of the first that is, and whether all others that are read
// have the same working frequencies, and the same answer.
#[derive(Clone, Copy)]
pub(crate) struct Common {
    pub read: bool,
    pub frequencies: [u64; MAX_POINTS],
    pub refusal: Option<Refusal>,
    pub same_frequencies: bool,
    pub same_answers: bool,
}

pub(crate) fn no_boards() -> Common {
    Common {
        read: false,
        frequencies: [0; MAX_POINTS],
        refusal: None,
        same_frequencies: true,
        same_answers: true,
    }
}

// What the boards have in common with one more of them. Working frequencies are compared with the zeros past the last: a level's
// frequency is above 0, so that lists of different lengths differ.
pub(crate) fn with_board(common: Common, board: Board) -> Common {
    let first = common.frequencies;
    let frequencies = board.frequencies;
    if !board.read {
        return common;
    }
    if !common.read {
        return Common {
            read: true,
            frequencies,
            refusal: board.refusal,
            same_frequencies: true,
            same_answers: true,
        };
    }
    Common {
        read: true,
        frequencies: first,
        refusal: common.refusal,
        same_frequencies: common.same_frequencies & (first == frequencies),
        same_answers: common.same_answers & (common.refusal == board.refusal),
    }
}
