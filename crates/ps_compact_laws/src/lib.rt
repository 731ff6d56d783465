//! The law of compaction: the entries that a lawful list is compacted to serve on as the list would.
//!
//! A compacted list begins with rows in the place of the entries that led to them (`ps_model`'s `Base.base`): the rows of the Book, the number of handed notices of each address,
//! and the notices that aren't handed. `specs/Laws.antt` says what it is to the list: `ServesOn` (the same lists are lawful behind a boot, with the same replies and entries, and
//! the same notices but for those that were handed), and `EachCompactedServesOn` that it is so of each lawful list.
//!
//! The law's premises are on spelling and on numbers. Each entry of the list has a spelling (`AreEntries`), as each entry of a store has: its texts are UTF-8, its moment is one that
//! a stamp can tell, its tree is no deeper than a tree may be. And the numbers are such as a row may have: fewer than 2^62 ids were made for an address on a node (`FewMade`), and
//! fewer than 2^62 notices handed to one (`FewHanded`).
//!
//! `proofs/` first shows of the rows, counters and notices of a list what acceptance asks of them (`Facts`), and then the law from that. Of the first, `Printable` and its kinds say
//! that rows are of texts and addresses, `Drafts` that what an event gives an address is a tree to it that fits and is no reply, `NoticeLines` what each notice's line is, and `Rereading` that
//! each row reads back.
//!
//! The function has an empty body: its contract is the law.
#![tactic(auto)]

mod laws;

pub use laws::each_compacted_serves_on;
