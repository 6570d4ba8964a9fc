//! The configurations that the top call is given, and the reports of their runs.

/// One class has a process of three steps.
pub const THREE_STEPS: &str =
    "gemkernel 1\nclasses 2\nclass low 0{}/15{} frames 2 pages 2 volume 0\nclass high 1{}/15{} frames 2 pages 2 volume 0\nprocessors 1\ncycle 0\nrounds 1\nquantum 1\nconsole 100\nscript 0\nset r2 5\nout r2\nhalt\nend\nprocess 0 0 0 4\nevents 0.0*3\nend\n";

/// The same, and only two events.
pub const TWO_EVENTS: &str =
    "gemkernel 1\nclasses 2\nclass low 0{}/15{} frames 2 pages 2 volume 0\nclass high 1{}/15{} frames 2 pages 2 volume 0\nprocessors 1\ncycle 0\nrounds 1\nquantum 1\nconsole 100\nscript 0\nset r2 5\nout r2\nhalt\nend\nprocess 0 0 0 4\nevents 0.0*2\nend\n";

/// No script and no process.
pub const NOTHING: &str =
    "gemkernel 1\nclasses 2\nclass low 0{}/15{} frames 2 pages 2 volume 0\nclass high 1{}/15{} frames 2 pages 2 volume 0\nprocessors 1\ncycle 0\nrounds 1\nquantum 1\nconsole 100\nend\n";

/// The first one with comments, blanks and a hexadecimal number.
pub const WITH_COMMENTS: &str =
    "gemkernel 1 # text\n\nclasses 2\nclass low 0{}/15{} frames 2 pages 2 volume 0\nclass high 1{}/15{}  frames 2 pages 2 volume 0\nprocessors 1\ncycle 0\nrounds 1\nquantum 1\nconsole 100\nscript 0\nset r2 0x5\nout r2\n@x\nhalt\nend\nprocess 0 0 0 4\nevents 0.0*3\nend";

/// Two classes with a volume each.
pub const WITH_VOLUMES: &str =
    "gemkernel 1\nclasses 2\nclass low 0{}/15{} frames 0 pages 0 volume 1\nclass high 1{}/15{} frames 0 pages 0 volume 3\nprocessors 2\ncycle 0\nrounds 1\nquantum 1\nconsole 0\nend\n";

/// The report of the first one.
pub const ENDED: &str =
    "class 0 low\nline 5\nprocess 0 0 ended script 0 place 2 ring 4\nregs 0 0 5 0 0 0 0 0 0 0 0 0 0 0 0 0\nclosed\nclass 1 high\nclosed\n";

/// The report after two events.
pub const LIVE: &str =
    "class 0 low\nline 5\nprocess 0 0 live script 0 place 2 ring 4\nregs 0 0 5 0 0 0 0 0 0 0 0 0 0 0 0 0\nopen\nclass 1 high\nclosed\n";

/// The report where nothing runs.
pub const EMPTY: &str = "class 0 low\nclosed\nclass 1 high\nclosed\n";
