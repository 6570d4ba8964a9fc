//! The configurations and volumes that are run, and what is due of them.

/// One class has a process of three steps.
pub const THREE_STEPS: &str =
    "gemkernel 1\nclasses 2\nclass low 0{}/15{} frames 2 pages 2 volume 0\nclass high 1{}/15{} frames 2 pages 2 volume 0\nprocessors 1\ncycle 0\nrounds 1\nquantum 1\nconsole 100\nscript 0\nset r2 5\nout r2\nhalt\nend\nprocess 0 0 0 4\nevents 0.0*3\nend\n";

/// Its report.
pub const ENDED: &str =
    "class 0 low\nline 5\nprocess 0 0 ended script 0 place 2 ring 4\nregs 0 0 5 0 0 0 0 0 0 0 0 0 0 0 0 0\nclosed\nclass 1 high\nclosed\n";

/// A low process writes a segment on volume 1 twice, and a high one fetches it.
pub const READ_ACROSS: &str =
    "gemkernel 1\nclasses 2\nclass low 0{}/15{} frames 2 pages 2 volume 1\nclass high 1{}/15{} frames 2 pages 2 volume 0\nprocessors 2\ncycle 0\nrounds 1\nquantum 1\nconsole 100\nscript 0\nset r5 511\nset r6 2\ncreate r2 r2 r2 r5 r6\nset r7 3\nmakeknown r2 r2 r7\ncopy r8 r1\nswapin r8\nset r9 7\nput r9 r2\nset r10 1\nput r9 r10\nupdate r8 r2 r6 r2\nset r9 8\nput r9 r2\nput r9 r10\nupdate r8 r2 r6 r2\nhalt\nend\nscript 1\nset r7 1\nmakeknown r2 r2 r7\ncopy r8 r1\nset r6 2\nfetch r8 r2 r6 r2\nget r9 r2\nout r9\nset r10 1\nget r9 r10\nout r9\nhalt\nend\nprocess 0 0 0 4\nprocess 1 1 1 4\nevents 0.0*46 1.1*7 1.1*4 0.0*8 1.1*2 1.1*6 1.1*6 0.0*1\nend\n";

/// Its report.
pub const REPORT: &str =
    "class 0 low\nprocess 0 0 ended script 0 place 16 ring 4\nregs 0 2 0 0 0 511 2 3 1 8 1 0 0 0 0 0\nclosed\nsegment 0 0 never writes 0 count 0 tickets 0\nentry 0 class 0 brackets 7 7 7 size 2 serial 1\nsegment 0 1 in writes 2 count 0 tickets 0\nwords 8 8\nclass 1 high\nline 8\nline 8\nprocess 1 0 ended script 1 place 10 ring 4\nregs 0 1 0 0 0 0 2 1 1 8 1 0 0 0 0 0\nclosed\n";

/// A volume of the two classes without records, in format 1.
pub const EMPTY_VOLUME: [u8; 31] = [
    71, 69, 77, 86, 79, 76, 1, 0, 2, 0, 0, 0, 0, 0, 15, 0, 0, 0, 0, 1, 0, 0, 0, 0, 15, 0, 0, 0, 0,
    0, 0,
];

/// The volume after the run, in format 2: one record, of the segment that the low process made, whose words aren't kept.
pub const VOLUME: [u8; 51] = [
    71, 69, 77, 86, 79, 76, 2, 0, 2, 3, 108, 111, 119, 0, 0, 0, 0, 0, 15, 0, 0, 0, 0, 4, 104, 105,
    103, 104, 1, 0, 0, 0, 0, 15, 0, 0, 0, 0, 0, 1, 0, 1, 0, 7, 7, 7, 2, 0, 0, 0, 0,
];
