// Texts, and trees that are built, read and printed.
use ps_types::{Attrs, Child, Elem, Kids, Text, TextRefusal};
use ps_wire::{TreeRefusal, print_tree, read_tree};
use std::alloc::Global;
use std::process::Abort;
use std::test::Fail;

const CREATE: &str =
    "{\"a\":{\"from\":\"ann@a.example/1\",\"id\":\"1\",\"to\":\"pubsub.example\",\"type\":\"set\"},\"c\":[{\"c\":[{\"a\":{\"node\":\"news\"},\"n\":\"create\"}],\"n\":\"pubsub\",\"ns\":\"http://jabber.org/protocol/pubsub\"}],\"n\":\"iq\"}";

const RESULT: &str =
    "{\"a\":{\"from\":\"pubsub.example\",\"id\":\"1\",\"to\":\"ann@a.example/1\",\"type\":\"result\"},\"n\":\"iq\"}";

// A text with spaces behind it, up to that length.
pub fn padded(rt: &HostRuntime, text: &str, length: usize) -> Result<String, Fail> {
    let mut line = String::from_str(rt.alloc(), text)?;
    for _ in text.len()..length {
        line.push_str(" ")?;
    }
    Ok(line)
}

#[test]
fn texts_are_utf8(rt: HostRuntime) -> Result<(), Fail> {
    let alloc = rt.alloc();
    let text = Text::read(alloc, b"caf\xc3\xa9")?;
    assert_eq!(rt; text.len(), 5);
    assert!(rt; matches!(Text::read(alloc, b"\xff"), Err(TextRefusal::NotUtf8)));
    Ok(())
}

fn put(alloc: Global, attrs: &mut Attrs, name: &str, value: &str) -> Result<(), Fail> {
    let name = Text::of(alloc, name)?;
    let value = Text::of(alloc, value)?;
    attrs.put(name, value)?;
    Ok(())
}

// The creation of the node `news`.
fn create(alloc: Global) -> Result<Elem, Fail> {
    let name = Text::of(alloc, "create")?;
    let ns = Text::of(alloc, "urn:p")?;
    let mut attrs = Attrs::new(alloc);
    put(alloc, &mut attrs, "node", "news")?;
    Ok(Elem::new(name, ns, attrs, Kids::new(alloc)))
}

fn kids_of(alloc: Global, child: Elem) -> Result<Kids, Fail> {
    let mut kids = Kids::new(alloc);
    kids.push(Child::Tree(child))?;
    Ok(kids)
}

fn pubsub(alloc: Global) -> Result<Elem, Fail> {
    let name = Text::of(alloc, "pubsub")?;
    let ns = Text::of(alloc, "urn:p")?;
    let kids = kids_of(alloc, create(alloc)?)?;
    Ok(Elem::new(name, ns, Attrs::new(alloc), kids))
}

// Whether it has that child of one namespace and not of another, and that child its attribute.
fn creates_news(tree: &Elem) -> bool {
    let node = match tree.child("create", "urn:p") {
        Some(create) => create.attr("node"),
        None => None,
    };
    let is_news = match node {
        Some(node) => node.is("news"),
        None => false,
    };
    is_news && tree.child("create", "urn:q").is_none()
}

#[test]
fn an_element_gives_its_attributes_and_children(rt: HostRuntime) -> Result<(), Fail> {
    let whole = pubsub(rt.alloc())?;
    let copy = whole.clone()?;
    assert!(rt; creates_news(&copy));
    Ok(())
}

// Why a line is refused.
fn refusal(alloc: Global, line: &[u8]) -> Option<TreeRefusal> {
    match read_tree(alloc, line) {
        Ok(_) => None,
        Err(e) => Some(e),
    }
}

// That many trees inside one another.
fn nested(alloc: Global, levels: usize) -> Result<String, Fail> {
    let mut line = String::new(alloc);
    for _ in 0..levels {
        line.push_str("{\"n\":\"a\",\"c\":[")?;
    }
    for _ in 0..levels {
        line.push_str("]}")?;
    }
    Ok(line)
}

// Tells of each line why it is refused; the first is of the greatest length.
fn are_refused(rt: &impl Abort, alloc: Global, full: &[u8]) {
    let (half, _) = CREATE.as_bytes().split_at(CREATE.len() / 2);
    for (line, want) in [
        (full, None),
        (b" { \"n\" : \"a\", \"c\":[\"x\",{\"n\":\"b\"}] } ", None),
        (half, Some(TreeRefusal::L2)),
        (b"", Some(TreeRefusal::L2)),
        (b" ", Some(TreeRefusal::L2)),
        (b"{", Some(TreeRefusal::L2)),
        (b"\xff", Some(TreeRefusal::L2)),
        (b"{\"c\":[1e999],\"n\":\"a\"}", Some(TreeRefusal::L2)),
        (b"[]", Some(TreeRefusal::L3)),
        (b"{\"n\":\"\"}", Some(TreeRefusal::L3)),
        (b"{\"n\":\"iq\",\"x\":1}", Some(TreeRefusal::L3)),
        (b"{\"a\":{\"id\":1},\"n\":\"iq\"}", Some(TreeRefusal::L3)),
    ] {
        assert_eq!(rt; refusal(alloc, line), want, "{line:?}");
    }
}

// Why trees of so many levels are refused.
fn depths_are_refused(rt: &impl Abort, alloc: Global) -> Result<(), Fail> {
    for (levels, want) in [
        (32, None),
        (33, Some(TreeRefusal::L4)),
        (100, Some(TreeRefusal::L2)),
    ] {
        let line = nested(alloc, levels)?;
        assert_eq!(rt; refusal(alloc, line.as_bytes()), want, "{levels}");
    }
    Ok(())
}

#[test]
fn a_line_that_is_no_tree_is_refused(rt: HostRuntime) -> Result<(), Fail> {
    let full = padded(&rt, CREATE, 262_144)?;
    are_refused(&rt, rt.alloc(), full.as_bytes());
    depths_are_refused(&rt, rt.alloc())
}

fn put_ends(alloc: Global, attrs: &mut Attrs) -> Result<(), Fail> {
    put(alloc, attrs, "type", "result")?;
    put(alloc, attrs, "to", "ann@a.example/1")?;
    put(alloc, attrs, "id", "1")?;
    put(alloc, attrs, "from", "pubsub.example")
}

fn result(alloc: Global) -> Result<Elem, Fail> {
    let name = Text::of(alloc, "iq")?;
    let ns = Text::of(alloc, "jabber:client")?;
    let mut attrs = Attrs::new(alloc);
    put_ends(alloc, &mut attrs)?;
    Ok(Elem::new(name, ns, attrs, Kids::new(alloc)))
}

fn is_printed(alloc: Global, tree: &Elem, line: &str) -> Result<bool, Fail> {
    let printed = print_tree(alloc, tree)?;
    Ok(printed.as_slice() == line.as_bytes())
}

#[test]
fn a_tree_is_printed_in_one_way(rt: HostRuntime) -> Result<(), Fail> {
    let result = result(rt.alloc())?;
    assert!(rt; !result.name.is_empty());
    assert!(rt; is_printed(rt.alloc(), &result, RESULT)?);
    let create = read_tree(rt.alloc(), padded(&rt, CREATE, 400)?.as_bytes())?;
    assert!(rt; is_printed(rt.alloc(), &create, CREATE)?);
    Ok(())
}
