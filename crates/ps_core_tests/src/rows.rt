// Lines on several hosts, as tables: what each is answered, whether it makes an entry, and the notices of that entry.
//
// Each step has three lines of its table. The first is the host on whose stream a line comes, with ` at ` and a number behind it where the line
// has that moment, and ` makes` where it makes an entry; then come the line and its reply, which is empty where there is none. Behind them each
// notice of the entry has a line of its own, in their order: `> `, its address, its number and its stanza. A line `-` stands between two steps.
//
// Where the first is `gone` and a host, the stream of that host ends. Where it is `handed` and an address, the first notice to the address that
// wasn't handed out yet is handed out; where it is `not handed`, there is none. Where it is `boot`, the service boots.
pub mod access;
pub mod approvals;
pub mod bookmarks;
pub mod capabilities;
pub mod collections;
pub mod dealt;
pub mod handed;
pub mod interest;
pub mod items;
pub mod last;
pub mod reach;
pub mod rosters;
pub mod streams;
pub mod subscribers;
