// Lines at two services, as tables: what each is answered, whether it makes an entry, and the notices of that entry.
//
// Each step has two halves, the left service's and then the right one's. A half has three lines of its table. The first is the host on whose stream a line comes, with
// ` makes` behind it where the line makes an entry; then come the line and its reply. Behind them each notice of the entry has a line of its own, in their order: `> `, its
// address, its number and its stanza. A line `=` stands between the halves, and a line `-` between two steps.
//
// Where the first is `handed` and an address, an entry comes that records its first notice as handed out; where it is `not handed`, that entry isn't accepted.
pub mod commits;
pub mod evictions;
pub mod handed;
pub mod items;
