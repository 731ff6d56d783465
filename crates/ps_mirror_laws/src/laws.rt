// The laws of mirrors. Each function is its contract.
ghost use Rattle.ps_mirror_laws.specs.Laws.{EachMirrorIsExact, EachMirroredSourceIsExact, EachNoticeIsBrief};

/// A mirror of a node that took the notices of an address in order, each any number of times in its place, holds just the node's items, in order.
pub fn each_mirror_is_exact()
    ensures { EachMirrorIsExact }
{}

/// No notice that tells a mirror something has more than 262,144 bytes.
pub fn each_notice_is_brief()
    ensures { EachNoticeIsBrief }
{}

/// What is reported of a source whose lines have the notices in order is just what the node holds, though longer lines are passed over.
pub fn each_mirrored_source_is_exact()
    ensures { EachMirroredSourceIsExact }
{}
