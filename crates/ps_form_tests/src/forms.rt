// Forms that are read from trees, looked into and printed.
use ps_forms::{FormRefusal, form_tree, form_type, get, printed_form_reads_back, read_form};
use ps_types::{Elem, Form, FormKind};
use ps_wire::read_tree;
use std::alloc::Global;
use std::process::Abort;
use std::test::Fail;

const CONFIG: &str = "http://jabber.org/protocol/pubsub#node_config";

// Two values of each field: of the form's type, of none, and twice of one.
const FIELDS: &str =
    r#"[{"n":"field","a":{"var":"FORM_TYPE"},"c":[{"n":"value","c":["http://jabber.org/protocol/pubsub#node_config"]},{"n":"value"}]},"\n",{"n":"field","c":[{"n":"value","c":["skipped"]},{"n":"value","c":["too"]}]},{"n":"field","a":{"var":"pubsub#max_items"},"c":[{"n":"value","c":["1"]},{"n":"value","c":["2"]}]},{"n":"field","a":{"var":"pubsub#max_items"},"c":[{"n":"value","c":["3"]},{"n":"value","c":["4"]}]}]"#;

fn tree(alloc: Global, name: &str, ns: &str, kind: &str) -> Result<Elem, Fail> {
    let line = format!(in alloc;
        r#"{{"n":"{name}","ns":"{ns}","a":{{"type":"{kind}"}},"c":{FIELDS}}}"#
    )?;
    match read_tree(alloc, line.as_bytes()) {
        Ok(tree) => Ok(tree),
        Err(_) => Err(Fail::from("the line is no tree")),
    }
}

fn looks_right(rt: &impl Abort, form: &Form) {
    assert!(rt; form.kind == FormKind::Submit);
    assert_eq!(rt; form.fields.as_slice().len(), 3);
    assert!(rt; get(form, "pubsub#title").is_none());
    match form_type(form) {
        Some(text) => assert!(rt; text.is(CONFIG)),
        None => assert!(rt; false),
    }
}

fn most_items(rt: &impl Abort, form: &Form) {
    match get(form, "pubsub#max_items") {
        Some(values) => {
            assert_eq!(rt; values.as_slice().len(), 2);
            match values.as_slice().first() {
                Some(text) => assert!(rt; text.is("1")),
                None => assert!(rt; false),
            }
        }
        None => assert!(rt; false),
    }
}

// A submitted form gives the values of its first fields, and reads as itself where it is printed.
fn is_read(rt: &impl Abort, alloc: Global) -> Result<(), Fail> {
    let form = read_form(alloc, &tree(alloc, "x", "jabber:x:data", "submit")?)?;
    looks_right(rt, &form);
    most_items(rt, &form);
    let again = read_form(alloc, &form_tree(alloc, &form)?)?;
    assert!(rt; form == again);
    printed_form_reads_back();
    Ok(())
}

// Whether a tree of that name, namespace and type is a form.
fn is_form(alloc: Global, name: &str, ns: &str, kind: &str) -> Result<bool, Fail> {
    match read_form(alloc, &tree(alloc, name, ns, kind)?) {
        Ok(_) => Ok(true),
        Err(FormRefusal::NotAForm) => Ok(false),
        Err(_) => Err(Fail::new("no memory")),
    }
}

/// Forms are read, and what is of another name, namespace or type is none.
pub fn goes(rt: &impl Abort, alloc: Global) -> Result<(), Fail> {
    is_read(rt, alloc)?;
    for (name, ns, kind, is) in [
        ("y", "jabber:x:data", "form", false),
        ("x", "jabber:client", "form", false),
        ("x", "jabber:x:data", "set", false),
        ("x", "jabber:x:data", "", false),
        ("x", "jabber:x:data", "form", true),
        ("x", "jabber:x:data", "submit", true),
        ("x", "jabber:x:data", "cancel", true),
        ("x", "jabber:x:data", "result", true),
    ] {
        assert_eq!(rt; is_form(alloc, name, ns, kind)?, is, "{name} {ns} {kind}");
    }
    Ok(())
}
