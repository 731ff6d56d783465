// The laws of secrecy. Each function is its contract.
ghost use Rattle.ps_secrecy.specs.Laws.{EachEntryIsSecret, EachLineIsSecret, EachPairIsSecret, EachReplyIsSecret, EachRunIsSecret};

/// In two worlds that differ in nothing that an address may learn, the reply to its line is the same; after any line, and after two lines of others for the items of one node
/// that it may not read, they still differ in nothing that it may learn, and it hears the same notices.
pub fn each_line_is_secret()
    ensures reply { EachReplyIsSecret }
    ensures line { EachLineIsSecret }
    ensures pair { EachPairIsSecret }
{}

/// The same of any entry, where it is accepted and where it isn't.
pub fn each_entry_is_secret()
    ensures { EachEntryIsSecret }
{}

/// Over whole runs, with every crash: an address that may not read some nodes gets the same replies and the same notices, byte for byte, whatever others do with the items of these nodes.
pub fn each_run_is_secret()
    ensures { EachRunIsSecret }
{}
