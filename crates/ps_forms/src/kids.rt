// The attributes, children and texts of an element.
ghost use Rattle.std.specs.Prelude.{◌≡◌, ◌<◌, ◌++◌, [], ◌∷◌, length, map, option_map, string_bytes, IfOk, IfSome, OnOk};
ghost use Rattle.std.specs.Str.{bytes_eq};
ghost use Rattle.ps_types.specs.Elem.{nodes};
ghost use Rattle.ps_types.specs.Shape.{attr_text, children_of, tree_text, text_in};
ghost use Rattle.ps_types.specs.Tree.{is_named};
ghost use Rattle.ps_forms.specs.Kids.{next_named};

use ps_base::Memory;
use ps_types::{Child, Elem, Text, Texts};
use std::alloc::{AllocError, Global};

/// The value of an attribute, which is empty where it is missing.
pub fn attr<'a>(elem: &'a Elem, name: &str) -> &'a str
    ensures { result.now ≡ attr_text name.now elem.now }
{
    match elem.attr(name) {
        Some(value) => value.as_str(),
        None => "",
    }
}

/// Whether the attribute is that text, the empty one where it is missing.
pub fn has_attr(elem: &Elem, name: &str, value: &str) -> bool
    ensures { result ≡ bytes_eq (attr_text name.now elem.now) value.now }
{
    attr(elem, name) == value
}

/// Whether the element has that name in that namespace.
pub fn has_name(elem: &Elem, name: &str, ns: &str) -> bool
    ensures { result ≡ is_named name.now ns.now elem.now }
{
    elem.name.is(name) && elem.ns.is(ns)
}

/// The first child tree of that name and namespace, and the children after it.
pub fn next_child<'a>(kids: &'a [Child], name: &str, ns: &str) -> Option<(&'a Elem, &'a [Child])>
    ensures next { option_map (λ p. (p.0.now, nodes p.1.now)) result ≡ next_named name.now ns.now (nodes kids.now) }
    ensures fewer { IfSome result (λ p. length p.1.now < length kids.now) }
{
    for (i, kid) in kids.iter().enumerate() {
        if let Child::Tree(tree) = kid {
            if has_name(tree, name, ns) {
                return Some((tree, &kids[i + 1..]));
            }
        }
    }
    None
}

fn add_words(text: &mut String, kid: &Child) -> Result<(), AllocError>
    ensures ok { OnOk result (string_bytes text.new ≡ string_bytes text.old ++ text_in (nodes (kid.now ∷ []))) }
{
    match kid {
        Child::Words(words) => text.push_str(words.as_str()),
        Child::Tree(_) => Ok(()),
    }
}

/// The text of an element: its text children, one after the other.
pub fn text_of(alloc: Global, elem: &Elem) -> Result<Text, Memory>
    ensures { IfOk result (λ t. t ≡ tree_text elem.now) }
{
    let mut text = String::new(alloc);
    for kid in elem.kids.as_slice() {
        add_words(&mut text, kid)?;
    }
    Ok(Text::from_string(text))
}

/// The texts of the child trees of that name and namespace.
pub fn texts_of(alloc: Global, elem: &Elem, name: &str, ns: &str) -> Result<Texts, Memory>
    ensures { IfOk result (λ texts. texts ≡ map tree_text (children_of name.now ns.now elem.now)) }
{
    let mut texts = Texts::new(alloc);
    let mut rest = elem.kids.as_slice();
    while let Some((child, after)) = next_child(rest, name, ns) {
        texts.push(text_of(alloc, child)?)?;
        rest = after;
    }
    Ok(texts)
}
