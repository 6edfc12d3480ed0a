//! Tags by name (X.690 section 8.1.2).

pub const BOOLEAN: u8 = 0x01;

pub const INTEGER: u8 = 0x02;

pub const BIT_STRING: u8 = 0x03;

pub const OCTET_STRING: u8 = 0x04;

pub const NULL: u8 = 0x05;

pub const OBJECT_IDENTIFIER: u8 = 0x06;

pub const PRINTABLE_STRING: u8 = 0x13;

pub const IA5_STRING: u8 = 0x16;

pub const UTC_TIME: u8 = 0x17;

pub const GENERALIZED_TIME: u8 = 0x18;

pub const SEQUENCE: u8 = 0x30;

pub const SET: u8 = 0x31;

/// [0], primitive.
pub const PRIMITIVE_0: u8 = 0x80;

/// [6], primitive.
pub const PRIMITIVE_6: u8 = 0x86;

/// [0], constructed.
pub const CONTEXT_0: u8 = 0xa0;

/// [3], constructed.
pub const CONTEXT_3: u8 = 0xa3;
