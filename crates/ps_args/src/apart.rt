// Whether names are names, and differ.
ghost use Rattle.std.specs.Prelude.{◌≡◌, length, not, ◌==◌};
ghost use Rattle.std.specs.List.{list_all, list_any};
ghost use Rattle.std.specs.Str.{bytes_eq};
ghost use Rattle.ps_args.specs.Words.{all_differ, are_hosts, are_names as are_names_by, are_two as are_two_by, hosts_of, names_of};

use crate::command::Stream;
use ps_types::Text;

/// Whether both are names, and differ.
pub fn are_two(one: &Text, other: &Text) -> bool
    ensures { result ≡ are_two_by one.now other.now }
{
    (!one.is_empty() && !other.is_empty()) && !one.is(other.as_str())
}

// Whether a stream has the host.
fn has_host(streams: &[Stream], host: &Text) -> bool
    ensures { result ≡ list_any (bytes_eq host.now) (hosts_of streams.now) }
{
    match streams {
        [] => false,
        [first, rest @ ..] => host.is(first.host.as_str()) || has_host(rest, host),
    }
}

// Whether a stream has the source or the sink of the name.
fn has_name(streams: &[Stream], name: &Text) -> bool
    ensures { result ≡ list_any (bytes_eq name.now) (names_of streams.now) }
{
    match streams {
        [] => false,
        [first, rest @ ..] => {
            name.is(first.source.as_str()) || (name.is(first.sink.as_str()) || has_name(rest, name))
        }
    }
}

fn hosts_differ(streams: &[Stream]) -> bool
    ensures { result ≡ all_differ (hosts_of streams.now) }
{
    match streams {
        [] => true,
        [first, rest @ ..] => !has_host(rest, &first.host) && hosts_differ(rest),
    }
}

fn names_differ(streams: &[Stream]) -> bool
    ensures { result ≡ all_differ (names_of streams.now) }
{
    match streams {
        [] => true,
        [first, rest @ ..] => {
            !first.source.is(first.sink.as_str())
                && (!has_name(rest, &first.source)
                    && (!has_name(rest, &first.sink) && names_differ(rest)))
        }
    }
}

// Whether no source and no sink is the empty name.
fn are_named(streams: &[Stream]) -> bool
    ensures { result ≡ list_all (λ name. not (length name == 0)) (names_of streams.now) }
{
    match streams {
        [] => true,
        [first, rest @ ..] => {
            !first.source.is_empty() && (!first.sink.is_empty() && are_named(rest))
        }
    }
}

/// Whether the hosts of the service and of the streams differ.
pub(crate) fn are_apart(service: &Text, streams: &[Stream]) -> bool
    ensures { result ≡ are_hosts service.now streams.now }
{
    !has_host(streams, service) && hosts_differ(streams)
}

/// Whether the store, the sources and the sinks have names that differ.
pub(crate) fn are_names(store: &Text, streams: &[Stream]) -> bool
    ensures { result ≡ are_names_by store.now streams.now }
{
    (!store.is_empty() && are_named(streams))
        && (!has_name(streams, store) && names_differ(streams))
}
