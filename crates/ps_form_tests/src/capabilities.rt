// Strings of capabilities: the two examples of XEP-0115 (§5.2 and §5.3), answers that are ill-formed, and long ones.
use ps_caps::{VerRefusal, check, read_info, ver_of};
use ps_types::{Info, Text};
use ps_wire::read_tree;
use std::alloc::Global;
use std::process::Abort;
use std::test::Fail;

// Answers, each behind a word and its string: it `agrees` with that, is `well`-formed and of another string, or `ill`-formed.
const ANSWERS: &str =
    r#"agrees QgayPKawpkPSDYmwT/WM94uAlu0= {"n":"query","ns":"http://jabber.org/protocol/disco#info","c":[{"n":"feature","a":{"var":"http://jabber.org/protocol/caps"}},{"n":"feature","a":{"var":"http://jabber.org/protocol/disco#items"}},{"n":"feature","a":{"var":"http://jabber.org/protocol/disco#info"}},{"n":"feature","a":{"var":"http://jabber.org/protocol/muc"}},{"n":"identity","a":{"category":"client","type":"pc","xml:lang":"","name":"Exodus 0.9.1"}}]}
agrees q07IKJEyjvHSyhy//CH0CxmKi8w= {"n":"query","ns":"http://jabber.org/protocol/disco#info","c":[{"n":"identity","a":{"category":"client","type":"pc","xml:lang":"en","name":"Psi 0.11"}},{"n":"feature","a":{"var":"http://jabber.org/protocol/caps"}},{"n":"feature","a":{"var":"http://jabber.org/protocol/disco#info"}},{"n":"feature","a":{"var":"http://jabber.org/protocol/disco#items"}},{"n":"feature","a":{"var":"http://jabber.org/protocol/muc"}},{"n":"x","ns":"jabber:x:data","a":{"type":"result"},"c":[{"n":"field","a":{"type":"","var":"os"},"c":[{"n":"value","c":["Mac"]}]},{"n":"field","a":{"type":"hidden","var":"FORM_TYPE"},"c":[{"n":"value","c":["urn:xmpp:dataforms:softwareinfo"]}]},{"n":"field","a":{"type":"","var":"ip_version"},"c":[{"n":"value","c":["ipv6"]},{"n":"value","c":["ipv4"]}]},{"n":"field","a":{"type":"","var":"os_version"},"c":[{"n":"value","c":["10.5.1"]}]},{"n":"field","a":{"type":"","var":"software"},"c":[{"n":"value","c":["Psi"]}]},{"n":"field","a":{"type":"","var":"software_version"},"c":[{"n":"value","c":["0.11"]}]}]},{"n":"identity","a":{"category":"client","type":"pc","xml:lang":"el","name":"Ψ 0.11"}}]}
ill - {"n":"query","ns":"http://jabber.org/protocol/disco#info","c":[{"n":"identity","a":{"category":"client","type":"pc","xml:lang":"en","name":"Psi"}},{"n":"identity","a":{"category":"client","type":"bot","xml:lang":"en","name":"Psi"}},{"n":"identity","a":{"category":"client","type":"pc","xml:lang":"en","name":"Psi"}}]}
ill - {"n":"query","ns":"http://jabber.org/protocol/disco#info","c":[{"n":"feature","a":{"var":"http://jabber.org/protocol/muc"}},{"n":"feature","a":{"var":"http://jabber.org/protocol/caps"}},{"n":"feature","a":{"var":"http://jabber.org/protocol/muc"}}]}
ill - {"n":"query","ns":"http://jabber.org/protocol/disco#info","c":[{"n":"x","ns":"jabber:x:data","a":{"type":"result"},"c":[{"n":"field","a":{"type":"hidden","var":"FORM_TYPE"},"c":[{"n":"value","c":["urn:xmpp:dataforms:softwareinfo"]}]}]},{"n":"x","ns":"jabber:x:data","a":{"type":"result"},"c":[{"n":"field","a":{"type":"hidden","var":"FORM_TYPE"},"c":[{"n":"value","c":["urn:a"]}]}]},{"n":"x","ns":"jabber:x:data","a":{"type":"result"},"c":[{"n":"field","a":{"type":"hidden","var":"FORM_TYPE"},"c":[{"n":"value","c":["urn:xmpp:dataforms:softwareinfo"]}]}]}]}
ill - {"n":"query","ns":"http://jabber.org/protocol/disco#info","c":[{"n":"x","ns":"jabber:x:data","a":{"type":"result"},"c":[{"n":"field","a":{"type":"hidden","var":"FORM_TYPE"},"c":[{"n":"value","c":["urn:xmpp:dataforms:softwareinfo"]},{"n":"value","c":["urn:a"]}]}]}]}
well - {"n":"query","ns":"http://jabber.org/protocol/disco#info","c":[{"n":"identity","a":{"category":"client","type":"pc","xml:lang":"en","name":"Psi"}},{"n":"identity","a":{"category":"client","type":"pc","xml:lang":"en","name":"Psi 2"}},{"n":"x","ns":"jabber:x:data","a":{"type":"result"},"c":[{"n":"field","a":{"type":"hidden","var":"FORM_TYPE"},"c":[{"n":"value","c":["urn:xmpp:dataforms:softwareinfo"]},{"n":"value","c":["urn:xmpp:dataforms:softwareinfo"]}]}]},{"n":"x","ns":"jabber:x:data","a":{"type":"result"},"c":[{"n":"field","a":{"type":"","var":"FORM_TYPE"},"c":[{"n":"value","c":["urn:xmpp:dataforms:softwareinfo"]},{"n":"value","c":["urn:a"]}]}]},{"n":"x","ns":"jabber:x:data","a":{"type":"result"},"c":[{"n":"field","a":{"type":"","var":"FORM_TYPE"},"c":[{"n":"value","c":["urn:xmpp:dataforms:softwareinfo"]}]}]},{"n":"x","ns":"jabber:x:data","a":{"type":"result"},"c":[{"n":"field","a":{"type":"hidden","var":"FORM_TYPE"},"c":[]}]}]}
agrees 2jmj7l5rSw0yVb/vlWAYkK/YBwk= {"n":"query","ns":"http://jabber.org/protocol/disco#info"}"#;

const LONG: &str = "LuRdj3+NfnH64FgIQAUChB6mAz4=";

// Whether what an answer comes to is of that word.
fn is_such(alloc: Global, info: &Info, word: &str, ver: &str) -> Result<bool, Fail> {
    let wanted = Text::of(alloc, ver)?;
    let other = Text::of(alloc, "AAAA")?;
    let (checked, besides) = (check(alloc, info, &wanted), check(alloc, info, &other));
    match ver_of(alloc, info) {
        Ok(own) => {
            let agrees = own.is(ver);
            let as_told = checked == Ok(agrees) && besides == Ok(false);
            Ok(as_told && agrees == (word == "agrees") && word != "ill")
        }
        Err(VerRefusal::IllFormed) => {
            let ill = Err(VerRefusal::IllFormed);
            Ok(word == "ill" && checked == ill && besides == ill)
        }
        Err(VerRefusal::Memory) => Err(Fail::new("no memory")),
    }
}

// Whether the answer of that line comes to that.
fn comes_to(alloc: Global, line: &str, word: &str, ver: &str) -> Result<bool, Fail> {
    let tree = read_tree(alloc, line.as_bytes())?;
    let info = read_info(alloc, &tree)?;
    is_such(alloc, &info, word, ver)
}

fn is_row(alloc: Global, row: &str) -> Result<bool, Fail> {
    let (word, rest) = row.split_once(' ').ok_or("no word")?;
    let (ver, line) = rest.split_once(' ').ok_or("no answer")?;
    comes_to(alloc, line, word, ver)
}

// An answer of 255 features, the last of them first, and this one.
fn long(alloc: Global, feature: &str) -> Result<String, Fail> {
    let mut line = String::new(alloc);
    line.push_str(r#"{"n":"query","ns":"http://jabber.org/protocol/disco#info","c":["#)?;
    for at in 0..255u32 {
        let number = 255 - at;
        let one = format!(in alloc; r#"{{"n":"feature","a":{{"var":"urn:f:{number:03}"}}}},"#)?;
        line.push_str(one.as_str())?;
    }
    let last = format!(in alloc; r#"{{"n":"feature","a":{{"var":"{feature}"}}}}]}}"#)?;
    line.push_str(last.as_str())?;
    Ok(line)
}

/// Each answer is of its word.
pub fn goes(rt: &impl Abort, alloc: Global) -> Result<(), Fail> {
    for row in ANSWERS.lines() {
        assert!(rt; is_row(alloc, row)?, "{row}");
    }
    for (feature, word) in [("urn:f:000", "agrees"), ("urn:f:128", "ill")] {
        let line = long(alloc, feature)?;
        assert!(rt; comes_to(alloc, line.as_str(), word, LONG)?, "{feature}");
    }
    Ok(())
}
