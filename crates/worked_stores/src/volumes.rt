//! A configuration, and images of volumes of its table.

/// Two classes, of one volume.
pub const CONFIGURATION: &str =
    "gemkernel 1\nclasses 2\nclass low 0{}/15{} frames 2 pages 2 volume 1\nclass high 1{}/15{} frames 2 pages 2 volume 1\nprocessors 1\ncycle 0\nrounds 1\nquantum 1\nconsole 100\nend\n";

/// A volume of one record, in format 1.
pub const FORMAT_1: [u8; 42] = [
    71, 69, 77, 86, 79, 76, 1, 0, 2, 0, 0, 0, 0, 0, 15, 0, 0, 0, 0, 1, 0, 0, 0, 0, 15, 0, 0, 0, 0,
    0, 1, 0, 1, 1, 7, 7, 7, 2, 0, 0, 0, 0,
];

/// The same volume, in format 2.
pub const FORMAT_2: [u8; 51] = [
    71, 69, 77, 86, 79, 76, 2, 0, 2, 3, 108, 111, 119, 0, 0, 0, 0, 0, 15, 0, 0, 0, 0, 4, 104, 105,
    103, 104, 1, 0, 0, 0, 0, 15, 0, 0, 0, 0, 0, 1, 0, 1, 1, 7, 7, 7, 2, 0, 0, 0, 0,
];

/// A volume without records, in format 2.
pub const EMPTY: [u8; 40] = [
    71, 69, 77, 86, 79, 76, 2, 0, 2, 3, 108, 111, 119, 0, 0, 0, 0, 0, 15, 0, 0, 0, 0, 4, 104, 105,
    103, 104, 1, 0, 0, 0, 0, 15, 0, 0, 0, 0, 0, 0,
];
