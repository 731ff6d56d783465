// The words of a command.
ghost use Rattle.std.specs.Prelude.{◌≡◌, Some, None, IfOk, IsErrOf};
ghost use Rattle.ps_args.specs.Words.{command_of};
ghost use Rattle.ps_args.specs.Words.{is_few as is_few_by, is_serve as is_serve_by};
ghost use Rattle.ps_args.specs.Words.{compacted, rehearsed, served_by, stream_in, streams_of};
ghost use Rattle.ps_args.specs.Well.{IsWell};

use crate::addresses::read_host;
use crate::apart::{are_apart, are_names, are_two};
use crate::command::{Command, Stream};
use crate::digits::number_between;
use crate::refusal::WordsRefusal;
use ps_base::Listed;
use ps_types::Text;
use std::alloc::Global;

fn read_stream(
    alloc: Global,
    host: &Text,
    source: &Text,
    sink: &Text,
) -> Result<Stream, WordsRefusal>
    ensures ok { IfOk result (λ s. stream_in host.now source.now sink.now ≡ Some s) }
    ensures usage { IsErrOf result WordsRefusal.Usage → stream_in host.now source.now sink.now ≡ None }
{
    let host = match read_host(alloc, host) {
        Ok(host) => host,
        Err(why) => return Err(why),
    };
    Ok(Stream {
        host,
        source: source.clone()?,
        sink: sink.clone()?,
    })
}

// Three words a stream, to the last word.
fn read_streams(alloc: Global, words: &[Text]) -> Result<Listed<Stream>, WordsRefusal>
    ensures ok { IfOk result (λ streams. streams_of words.now ≡ Some streams) }
    ensures usage { IsErrOf result WordsRefusal.Usage → streams_of words.now ≡ None }
{
    let mut streams = Listed::new(alloc);
    let mut rest = words;
    while let [host, source, sink, next @ ..] = rest {
        let stream = match read_stream(alloc, host, source, sink) {
            Ok(stream) => stream,
            Err(why) => return Err(why),
        };
        streams.push(stream)?;
        rest = next;
    }
    if rest.is_empty() {
        Ok(streams)
    } else {
        Err(WordsRefusal::Usage)
    }
}

fn is_serve(serve: &Text, service_word: &Text, store_word: &Text) -> bool
    ensures { result ≡ is_serve_by serve.now service_word.now store_word.now }
{
    serve.is("serve") && (service_word.is("--service") && store_word.is("--store"))
}

fn is_few(streams: &[Stream]) -> bool
    ensures { result ≡ is_few_by streams.now }
{
    1 <= streams.len() && streams.len() <= 16
}

fn read_serve(
    alloc: Global,
    service: &Text,
    store: &Text,
    words: &[Text],
) -> Result<Command, WordsRefusal>
    ensures ok { IfOk result (λ c. served_by service.now store.now words.now ≡ Some c) }
    ensures usage { IsErrOf result WordsRefusal.Usage → served_by service.now store.now words.now ≡ None }
{
    let service = match read_host(alloc, service) {
        Ok(service) => service,
        Err(why) => return Err(why),
    };
    let streams = match read_streams(alloc, words) {
        Ok(streams) => streams,
        Err(why) => return Err(why),
    };
    if is_few(streams.as_slice())
        && (are_apart(&service, streams.as_slice()) && are_names(store, streams.as_slice()))
    {
        Ok(Command::Serve {
            service,
            store: store.clone()?,
            streams,
        })
    } else {
        Err(WordsRefusal::Usage)
    }
}

fn read_rehearse(seed: &Text, count: &Text) -> Result<Command, WordsRefusal>
    ensures ok { IfOk result (λ c. rehearsed seed.now count.now ≡ Some c) }
    ensures usage { IsErrOf result WordsRefusal.Usage → rehearsed seed.now count.now ≡ None }
    ensures memory { IsErrOf result WordsRefusal.Memory → ⊥ }
{
    let Some(seed) = number_between(0, u64::MAX, seed.as_str()) else {
        return Err(WordsRefusal::Usage);
    };
    let Some(count) = number_between(1, 100000, count.as_str()) else {
        return Err(WordsRefusal::Usage);
    };
    Ok(Command::Rehearse { seed, count })
}

fn read_compact(store: &Text, new: &Text) -> Result<Command, WordsRefusal>
    ensures ok { IfOk result (λ c. compacted store.now new.now ≡ Some c) }
    ensures usage { IsErrOf result WordsRefusal.Usage → compacted store.now new.now ≡ None }
{
    if !are_two(store, new) {
        return Err(WordsRefusal::Usage);
    }
    Ok(Command::Compact {
        store: store.clone()?,
        new: new.clone()?,
    })
}

/// The command that the words after the program's name are. `Usage` says that they are none.
pub fn read_words(alloc: Global, words: &[Text]) -> Result<Command, WordsRefusal>
    ensures ok { IfOk result (λ c. command_of words.now ≡ Some c) }
    ensures well { IfOk result IsWell }
    ensures usage { IsErrOf result WordsRefusal.Usage → command_of words.now ≡ None }
{
    match words {
        [
            serve,
            service_word,
            service,
            store_word,
            store,
            streams @ ..,
        ] if is_serve(serve, service_word, store_word) => {
            read_serve(alloc, service, store, streams)
        }
        [rehearse, seed, count] if rehearse.is("rehearse") => read_rehearse(seed, count),
        [compact, path, new] if compact.is("compact") => read_compact(path, new),
        _ => Err(WordsRefusal::Usage),
    }
}
