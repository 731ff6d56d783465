// The values of a field, read as what its row holds.
ghost use Rattle.std.specs.Prelude.{◌≡◌, ◌≤◌, ◌^◌, ◌<◌, Some, option_map, option_and_then};
ghost use Rattle.std.specs.Char.{is_ascii_digit};
ghost use Rattle.std.specs.List.{list_all};
ghost use Rattle.ps_types.specs.Config as config;
ghost use Rattle.ps_types.specs.Options as options;
ghost use Rattle.ps_types.specs.Values as values;
ghost use Rattle.ps_config.specs.Digits.{value_in};

use ps_types::{Access, Most, NodeKind, NoticeKind, PublishModel, SendLast, Texts};

/// The value, where there is exactly one.
pub(crate) fn single(given: &Texts) -> Option<&str>
    ensures { option_map (λ text. text.now) result ≡ values.single given.now }
{
    match given.as_slice() {
        [value] => Some(value.as_str()),
        _ => None,
    }
}

/// `1`, `true`, `0` or `false`.
pub(crate) fn boolean_in(given: &Texts) -> Option<bool>
    ensures { result ≡ values.boolean_in given.now }
{
    match single(given)? {
        "1" | "true" => Some(true),
        "0" | "false" => Some(false),
        _ => None,
    }
}

fn all_digits(bytes: &[u8]) -> bool
    ensures { result ≡ list_all is_ascii_digit bytes.now }
{
    bytes.iter().all(|byte| byte.is_ascii_digit())
}

// One digit at least, and at most so many.
#[tactic(auto, using(crate::proofs::Numbers::digits_each))]
fn are_digits(most: usize, text: &str) -> bool
    ensures { result ≡ values.are_digits most text.now }
{
    !text.is_empty() && text.len() <= most && all_digits(text.as_bytes())
}

// The number that 1 to 20 digits write.
fn value_of(text: &str) -> Option<u128>
    ensures { result ≡ value_in text.now }
{
    if !are_digits(20, text) {
        return None;
    }
    match text.parse::<u128>() {
        Ok(number) => Some(number),
        Err(_) => None,
    }
}

// 1 to 20 digits that aren't 0, where no more counts than the bound.
fn number_of(bound: u64, text: &str) -> Option<u64>
    ensures { result ≡ values.number_of bound text.now }
{
    match value_of(text) {
        Some(0) => None,
        Some(number) => Some(number.min(u128::from(bound)) as u64),
        None => None,
    }
}

/// A number of items: `max`, or 1 to 20 digits that aren't 0. More than 1000 counts as 1000.
pub(crate) fn most_in(given: &Texts) -> Option<Most>
    ensures { result ≡ option_and_then config.most_of (values.single given.now) }
{
    let text = single(given)?;
    if text == "max" {
        return Some(Most::new(1000));
    }
    match number_of(1000, text) {
        Some(number) => Some(Most::new(number)),
        None => None,
    }
}

/// A size in bytes: 1 to 20 digits that aren't 0. More than 131072 counts as 131072.
pub(crate) fn size_in(given: &Texts) -> Option<u64>
    ensures { result ≡ values.number_in 131072 given.now }
{
    number_of(131072, single(given)?)
}

/// The name of a node, or the empty text.
pub(crate) fn name_in(given: &Texts) -> Option<&str>
    ensures { option_map (λ text. text.now) result ≡ option_and_then config.name_of (values.single given.now) }
{
    let text = single(given)?;
    if text.len() <= 512 { Some(text) } else { None }
}

pub(crate) fn access_in(given: &Texts) -> Option<Access>
    ensures { result ≡ values.choice_in config.access_choices given.now }
{
    match single(given)? {
        "open" => Some(Access::Everyone),
        "presence" => Some(Access::Presence),
        "roster" => Some(Access::Roster),
        "authorize" => Some(Access::Authorize),
        "whitelist" => Some(Access::Whitelist),
        _ => None,
    }
}

pub(crate) fn model_in(given: &Texts) -> Option<PublishModel>
    ensures { result ≡ values.choice_in config.model_choices given.now }
{
    match single(given)? {
        "publishers" => Some(PublishModel::Publishers),
        "subscribers" => Some(PublishModel::Subscribers),
        "open" => Some(PublishModel::Anyone),
        _ => None,
    }
}

pub(crate) fn send_in(given: &Texts) -> Option<SendLast>
    ensures { result ≡ values.choice_in config.send_choices given.now }
{
    match single(given)? {
        "never" => Some(SendLast::Never),
        "on_sub" => Some(SendLast::OnSub),
        "on_sub_and_presence" => Some(SendLast::OnSubAndPresence),
        _ => None,
    }
}

pub(crate) fn notice_in(given: &Texts) -> Option<NoticeKind>
    ensures { result ≡ values.choice_in config.notice_choices given.now }
{
    match single(given)? {
        "normal" => Some(NoticeKind::Normal),
        "headline" => Some(NoticeKind::Headline),
        _ => None,
    }
}

pub(crate) fn kind_in(given: &Texts) -> Option<NodeKind>
    ensures { result ≡ values.choice_in config.kind_choices given.now }
{
    match single(given)? {
        "leaf" => Some(NodeKind::Leaf),
        "collection" => Some(NodeKind::Collection),
        _ => None,
    }
}

/// Whether items are asked for, and not nodes.
pub(crate) fn items_in(given: &Texts) -> Option<bool>
    ensures { result ≡ values.choice_in options.type_choices given.now }
{
    match single(given)? {
        "items" => Some(true),
        "nodes" => Some(false),
        _ => None,
    }
}

/// Whether any number of steps is reached, and not one.
pub(crate) fn deep_in(given: &Texts) -> Option<bool>
    ensures { result ≡ values.choice_in options.depth_choices given.now }
{
    match single(given)? {
        "1" => Some(false),
        "all" => Some(true),
        _ => None,
    }
}
