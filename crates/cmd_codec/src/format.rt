//! What records are made of.

pub const ADD: u8 = 1;

pub const DELETE: u8 = 2;

pub const ADD_PARENT: u8 = 3;

pub const ADD_CHILD: u8 = 4;

pub const UPDATE_CHILD: u8 = 5;

pub const REMOVE_CHILD: u8 = 6;

pub const UPDATE_ROAS: u8 = 7;

pub const SUSPEND_CHILD: u8 = 8;

pub const UNSUSPEND_CHILD: u8 = 9;

pub const INIT_ROLL: u8 = 10;

pub const ACTIVATE_ROLL: u8 = 11;

/// How many bytes a number, a length or a count has.
pub const NUMBER_SIZE: usize = 4;

/// How many bytes an origin has.
pub const ORIGIN_SIZE: usize = 23;

/// How many bytes a range has.
pub const RANGE_SIZE: usize = 32;

/// The greatest length of a name, in bytes.
pub const NAME_LEN: u32 = 64;
