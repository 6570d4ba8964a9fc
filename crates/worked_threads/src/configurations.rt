//! The configurations that are run, and the reports that come of them.

/// Three processors: on two of them processes that signal to each other in turn, on the third one that writes a segment, which two
/// processes of higher classes read.
pub const PING_PONG: &str =
    "gemkernel 1\nclasses 4\nclass low 0{}/15{} frames 4 pages 4 volume 0\nclass mid 1{}/15{} frames 1 pages 1 volume 0\nclass side 1{2}/15{} frames 1 pages 1 volume 0\nclass top 3{0,2}/15{} frames 1 pages 1 volume 0\nprocessors 3\ncycle 0 1 2 3\nrounds 200\nquantum 64\nconsole 100\nscript 0   # ping\nset r5 511\nset r6 1\ncreate r2 r2 r2 r5 r6\nset r7 3\nmakeknown r2 r2 r7\ncopy r8 r1\nset r9 50\nset r10 1\n@go\nadd r11 r10\nadvance r2\nawait r8 r11\njumpl r11 r9 @go\nhalt\nend\nscript 0   # pong\nset r7 3\n@find\nmakeknown r2 r2 r7\njumpz r0 @have\njump @find\n@have\ncopy r8 r1\nset r9 50\nset r10 1\n@go\nadd r11 r10\nawait r2 r11\nout r11\nadvance r8\njumpl r11 r9 @go\nhalt\nend\nscript 0   # source\nset r5 511\nset r6 2\nset r3 1\ncreate r2 r3 r2 r5 r6\nset r7 3\nmakeknown r2 r3 r7\ncopy r8 r1\nswapin r8\nset r9 20\n@go\nadd r11 r3\nput r11 r2\nput r11 r3\nupdate r8 r2 r6 r2\njumpl r11 r9 @go\nhalt\nend\nscript 0   # reader\nset r3 1\nset r6 2\n@find\nmakeknown r2 r3 r3\njumpz r0 @have\njump @find\n@have\ncopy r8 r1\nset r9 20\n@look\nfetch r8 r2 r6 r2\nget r11 r3\njumpl r11 r9 @look\nout r11\nhalt\nend\nprocess 0 0 0 4\nprocess 1 0 1 4\nprocess 2 0 2 4\nprocess 0 1 3 4\nprocess 1 2 3 4\nend\n";

/// One process of three steps, which has one round of one step.
pub const ONE_ROUND: &str =
    "gemkernel 1\nclasses 2\nclass low 0{}/15{} frames 2 pages 2 volume 0\nclass high 1{}/15{} frames 2 pages 2 volume 0\nprocessors 1\ncycle 0\nrounds 1\nquantum 1\nconsole 100\nscript 0\nset r2 5\nout r2\nhalt\nend\nprocess 0 0 0 4\nevents 0.0*3\nend\n";

/// The same with three rounds.
pub const THREE_ROUNDS: &str =
    "gemkernel 1\nclasses 2\nclass low 0{}/15{} frames 2 pages 2 volume 0\nclass high 1{}/15{} frames 2 pages 2 volume 0\nprocessors 1\ncycle 0\nrounds 3\nquantum 1\nconsole 100\nscript 0\nset r2 5\nout r2\nhalt\nend\nprocess 0 0 0 4\nevents 0.0*3\nend\n";

/// The same with nine.
pub const NINE_ROUNDS: &str =
    "gemkernel 1\nclasses 2\nclass low 0{}/15{} frames 2 pages 2 volume 0\nclass high 1{}/15{} frames 2 pages 2 volume 0\nprocessors 1\ncycle 0\nrounds 9\nquantum 1\nconsole 100\nscript 0\nset r2 5\nout r2\nhalt\nend\nprocess 0 0 0 4\nevents 0.0*3\nend\n";

/// Two processors, each with a process that draws a ticket and prints it.
pub const TWO_TICKETS: &str =
    "gemkernel 1\nclasses 2\nclass low 0{}/15{} frames 2 pages 2 volume 0\nclass high 1{}/15{} frames 2 pages 2 volume 0\nprocessors 2\ncycle 0\nrounds 1\nquantum 8\nconsole 100\nscript 0\nticket r2\nout r1\nhalt\nend\nprocess 0 0 0 4\nprocess 1 0 0 4\nevents 0.0*3\nend\n";

/// Four processors without a process.
pub const NOTHING: &str =
    "gemkernel 1\nclasses 2\nclass low 0{}/15{} frames 2 pages 2 volume 0\nclass high 1{}/15{} frames 2 pages 2 volume 0\nprocessors 4\ncycle 0 1\nrounds 5\nquantum 3\nconsole 100\nend\n";

/// Two classes with a volume each, and no process.
pub const WITH_VOLUMES: &str =
    "gemkernel 1\nclasses 2\nclass low 0{}/15{} frames 0 pages 0 volume 1\nclass high 1{}/15{} frames 0 pages 0 volume 3\nprocessors 2\ncycle 0\nrounds 1\nquantum 1\nconsole 0\nend\n";

/// One processor, with as many rounds by its schedule as it has by itself.
pub const SWEPT: &str =
    "gemkernel 1\nclasses 2\nclass low 0{}/15{} frames 1 pages 1 volume 0\nclass high 1{}/15{} frames 1 pages 1 volume 0\nprocessors 1\ncycle 0 1 0\nrounds 9\nquantum 5\nconsole 100\nscript 0\nticket r2\nout r1\nadvance r2\nhalt\nend\nscript 1\nset r3 2\nawait r2 r3\nout r1\nhalt\nend\nprocess 0 0 0 4\nprocess 0 0 0 4\nprocess 0 1 1 4\nsweep 9\nend\n";

/// After one step of three.
pub const ONE_STEP: &str =
    "class 0 low\nprocess 0 0 live script 0 place 1 ring 4\nregs 0 0 5 0 0 0 0 0 0 0 0 0 0 0 0 0\nopen\nclass 1 high\nclosed\n";

/// After all three.
pub const ENDED: &str =
    "class 0 low\nline 5\nprocess 0 0 ended script 0 place 2 ring 4\nregs 0 0 5 0 0 0 0 0 0 0 0 0 0 0 0 0\nclosed\nclass 1 high\nclosed\n";

/// Where nothing runs.
pub const EMPTY: &str = "class 0 low\nclosed\nclass 1 high\nclosed\n";
