// What a state with one host does, as tables. A line of a table is what is done and, behind ` = `, what comes of it.
//
// `lay` and a line: how many entries stand then and whether it makes one, or why it isn't taken. `fill` lays so many messages, of which each is answered.
// `next`: what the writer is to do, `reply` or `notice` and a line, `waits` or `over`. `record` and an address, and `gone`: `ok`, or why not. `flush`: how many bytes the
// entries of the frame have that is handed over, `none` where there is none, and all steps are flushed then. `end reader`, `end writer` and `fault` are what
// they say. The words of lines are those of `lines.rt`; a Boot stands already.

/// Of a create's entry the kind, the host behind two bytes of length, the line's number in eight, and the tree behind four: 212 bytes. A Handed has 16, and a
/// Gone 12.
pub const SHOWN: &str = "\
next = waits
lay create = 1 committed
lay message = 2 answered
lay nothing = 2 silent
next = waits
flush = 212
next = reply made
next = reply unavailable
next = waits
flush = none
next = waits";

/// Replies come first. Nothing more is told to the address until the step is flushed that recorded its notice.
pub const HANDED: &str = "\
lay create = 1 committed
lay subscribe = 2 committed
lay publish = 3 committed
lay publish = 4 committed
next = waits
flush = 1011
next = reply made
next = reply subscribed
next = reply published
next = reply published
next = notice first
next = waits
record ann@a.example = ok
next = waits
flush = 16
next = notice second
next = waits
record ann@a.example = ok
next = waits
flush = 16
next = waits";

/// Notices to two addresses are in hand together. Once one of them is recorded, nothing more is told until that step is flushed. Where no reader runs,
/// there is more to come while a notice is in hand.
pub const RUNS: &str = "\
lay create = 1 committed
lay subscribe = 2 committed
lay join = 3 committed
lay publish = 4 committed
lay publish = 5 committed
flush = 1248
next = reply made
next = reply subscribed
next = reply joined
next = reply published
next = reply published
next = notice first
next = notice bobs-first
next = waits
record ann@a.example = ok
next = waits
record bob@a.example = ok
next = waits
flush = 32
next = notice second
record ann@a.example = ok
next = waits
flush = 16
end reader = ok
next = notice bobs-second
next = waits
record bob@a.example = ok
next = waits
flush = 16
next = over";

/// No line is taken where 64 replies wait.
pub const FILLED: &str = "\
fill 64 = ok
lay create = again
flush = none
next = reply unavailable
lay create = 1 committed";

/// What was flushed before a fault is shown, and nothing is taken after it.
pub const BROKEN: &str = "\
lay create = 1 committed
flush = 212
lay message = 2 answered
fault = ok
lay message = store
gone = store
next = reply made
next = waits";

/// No line is taken where the writer has ended.
pub const UNWRITTEN: &str = "\
end writer = ok
lay create = closed
next = waits";

/// A create doesn't fit by a byte.
pub const UNFIT: &str = "\
lay create = 1 full
next = waits
flush = none
next = reply full
next = waits";

/// The reader ends, and its Gone waits to be written, of which one has room; once all is taken nothing comes any more.
pub const GONE: &str = "\
lay message = 1 answered
end reader = ok
gone = ok
gone = full
next = over
flush = 12
next = reply unavailable
next = over";
