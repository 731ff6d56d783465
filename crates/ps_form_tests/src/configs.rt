// Forms that are read as configurations and options, and what is printed for them.
use ps_config::{
    ConfigRefusal, OptionsRefusal, config_form, configs_stay_bounded, default_config, has_row,
    options_form, printed_config_reads_back, printed_options_read_back, read_config, read_options,
};
use ps_forms::get;
use ps_types::{
    Access, Field, Fields, Form, FormKind, NodeConfig, SendLast, SubOptions, Text, Texts,
};
use std::alloc::Global;
use std::process::Abort;
use std::test::Fail;

// A row's var, its values between bars, and the number of the row where they aren't readable, or 0. `-` is no value.
const VALUES: &str = "\
deliver_notifications yes 2
deliver_payloads  3
notify_config True 4
notify_delete 2 5
notify_retract on 6
persist_items 00 7
max_items 0 8
max_items +1 8
max_items 100000000000000000000 8
access_model everyone 9
publish_model anyone 10
send_last_published_item always 12
presence_based_delivery no 13
notification_type chat 14
max_payload_size max 15
node_type Leaf 16
title - 1
persist_items 1|1 7
collection a|b 17
roster_groups_allowed - 0";

// What is printed for a new node.
const SHOWN: &str = "\
FORM_TYPE http://jabber.org/protocol/pubsub#node_config
pubsub#deliver_payloads 1
pubsub#notify_delete 0
pubsub#max_items 10
pubsub#access_model open
pubsub#send_last_published_item never
pubsub#max_payload_size 65536
pubsub#node_type leaf";

// What is printed for options of items and any depth.
const OPTIONS: &str = "\
FORM_TYPE http://jabber.org/protocol/pubsub#subscribe_options
pubsub#subscription_type items
pubsub#subscription_depth all";

// A value of `max_items`, and how many it comes to.
const MOST: &str = "1 1\n007 7\n1000 1000\n1001 1000\nmax 1000\n99999999999999999999 1000";

fn texts(alloc: Global, values: &str) -> Result<Texts, Fail> {
    let mut texts = Texts::new(alloc);
    if values != "-" {
        for value in values.split('|') {
            texts.push(Text::of(alloc, value)?)?;
        }
    }
    Ok(texts)
}

fn field(alloc: Global, var: &str, values: &str) -> Result<Field, Fail> {
    let var = Text::from_string(format!(in alloc; "pubsub#{var}")?);
    let kind = Text::of(alloc, "")?;
    let values = texts(alloc, values)?;
    Ok(Field { var, kind, values })
}

// A submitted form with this one field.
fn form(alloc: Global, var: &str, values: &str) -> Result<Form, Fail> {
    let field = field(alloc, var, values)?;
    let mut fields = Fields::new(alloc);
    fields.push(field)?;
    Ok(Form {
        kind: FormKind::Submit,
        fields,
    })
}

fn read(alloc: Global, var: &str, values: &str) -> Result<Result<NodeConfig, ConfigRefusal>, Fail> {
    let form = form(alloc, var, values)?;
    let base = default_config(alloc, false)?;
    Ok(read_config(alloc, &form, &base))
}

// The number of the row that isn't readable, or 0.
fn unread(alloc: Global, var: &str, values: &str) -> Result<u64, Fail> {
    match read(alloc, var, values)? {
        Ok(_) => Ok(0),
        Err(ConfigRefusal::BadValue(row)) => Ok(row),
        Err(_) => Err(Fail::new("no memory")),
    }
}

fn most(alloc: Global, value: &str) -> Result<u64, Fail> {
    match read(alloc, "max_items", value)? {
        Ok(config) => Ok(config.max_items.get()),
        Err(_) => Err(Fail::new("not readable")),
    }
}

// A collection's name of so many bytes.
fn unread_name(alloc: Global, bytes: usize) -> Result<u64, Fail> {
    let mut name = String::new(alloc);
    for _ in 0..bytes {
        name.push_str("n")?;
    }
    unread(alloc, "collection", name.as_str())
}

fn values_are_read(rt: &impl Abort, alloc: Global) -> Result<(), Fail> {
    for row in VALUES.lines() {
        let (var, rest) = row.split_once(' ').ok_or("no var")?;
        let (values, number) = rest.rsplit_once(' ').ok_or("no number")?;
        let number: u64 = number.parse()?;
        assert_eq!(rt; unread(alloc, var, values)?, number, "{row}");
    }
    for row in MOST.lines() {
        let (value, number) = row.split_once(' ').ok_or("no number")?;
        let number: u64 = number.parse()?;
        assert_eq!(rt; most(alloc, value)?, number, "{row}");
    }
    for (bytes, row) in [(512, 0), (513, 17)] {
        assert_eq!(rt; unread_name(alloc, bytes)?, row, "{bytes}");
    }
    Ok(())
}

const BASE: SubOptions = SubOptions {
    items: true,
    deep: true,
};

const NODES: SubOptions = SubOptions {
    items: false,
    deep: true,
};

fn options(
    alloc: Global,
    var: &str,
    value: &str,
) -> Result<Result<SubOptions, OptionsRefusal>, Fail> {
    let form = form(alloc, var, value)?;
    Ok(read_options(&form, BASE))
}

fn options_are_read(rt: &impl Abort, alloc: Global) -> Result<(), Fail> {
    for (var, value, want) in [
        ("subscription_type", "nodes", Ok(NODES)),
        (
            "subscription_type",
            "item",
            Err(OptionsRefusal::BadValue(1)),
        ),
        ("subscription_depth", "2", Err(OptionsRefusal::BadValue(2))),
    ] {
        assert!(rt; options(alloc, var, value)? == want, "{var} {value}");
    }
    Ok(())
}

// The value of a row as it is printed.
fn is_shown(form: &Form, row: &str) -> bool {
    match row.split_once(' ') {
        Some((var, value)) => match get(form, var) {
            Some(values) => match values.as_slice().first() {
                Some(text) => text.is(value),
                None => false,
            },
            None => false,
        },
        None => false,
    }
}

fn shows(rt: &impl Abort, form: &Form, rows: &str, fields: usize) {
    assert!(rt; form.kind == FormKind::Form);
    assert_eq!(rt; form.fields.as_slice().len(), fields);
    for row in rows.lines() {
        assert!(rt; is_shown(form, row), "{row}");
    }
}

fn are_printed(rt: &impl Abort, alloc: Global) -> Result<(), Fail> {
    let config = default_config(alloc, false)?;
    shows(rt, &config_form(alloc, &config)?, SHOWN, 18);
    shows(rt, &options_form(alloc, BASE)?, OPTIONS, 3);
    Ok(())
}

// An account's node has defaults of its own, which are printed and read as themselves.
fn accounts_have_their_own(rt: &impl Abort, alloc: Global) -> Result<(), Fail> {
    let config = default_config(alloc, true)?;
    assert_eq!(rt; config.max_items.get(), 1);
    assert!(rt; config.access_model == Access::Presence);
    assert!(rt; config.send_last_published_item == SendLast::OnSubAndPresence);
    let again = read_config(
        alloc,
        &config_form(alloc, &config)?,
        &default_config(alloc, false)?,
    )?;
    assert!(rt; again == config);
    Ok(())
}

/// Rows are known by their vars, values and options are read, and printed.
pub fn goes(rt: &impl Abort, alloc: Global) -> Result<(), Fail> {
    values_are_read(rt, alloc)?;
    options_are_read(rt, alloc)?;
    are_printed(rt, alloc)?;
    accounts_have_their_own(rt, alloc)?;
    assert!(rt; has_row("pubsub#title") && has_row("pubsub#collection"));
    assert!(rt; !has_row("title") && !has_row("FORM_TYPE"));
    printed_config_reads_back();
    configs_stay_bounded();
    printed_options_read_back();
    Ok(())
}
