//! The bytes that tell what stands behind them.

pub const NIL_TAG: u8 = 0;

pub const FALSE_TAG: u8 = 1;

pub const TRUE_TAG: u8 = 2;

pub const NUMBER_TAG: u8 = 3;

pub const TEXT_TAG: u8 = 4;

pub const CREATE_TAG: u8 = 1;

pub const UPDATE_TAG: u8 = 2;

pub const DESTROY_TAG: u8 = 3;

pub const TOUCH_TAG: u8 = 4;
