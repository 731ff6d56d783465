// The status of a run over its streams.
ghost use Rattle.std.specs.Prelude.{◌≡◌, true, is_some, None};
ghost use Rattle.ps_hall_store.specs.Stand.{broken_in};
ghost use Rattle.ps_serve.specs.Ends.{closed_status, rank as rank_of, stream_status, worst, worst_in, write_status};

use ps_disk::Disk;
use ps_hall_store::Store;
use ps_status::Status;
use ps_workers::{EndCause, Ended, ReadEnd};

fn rank(status: Status) -> u8
    ensures { result ≡ rank_of status }
{
    match status {
        Status::Done => 0,
        Status::StreamLong => 1,
        Status::StreamFault => 2,
        Status::Memory => 3,
        Status::StoreFull => 4,
        Status::StoreFault => 5,
        Status::StoreDamaged { at: _ } => 6,
        Status::FeedBad { at: _ } => 7,
        Status::OpenFault => 8,
        Status::Usage => 9,
        Status::Occupied => 10,
    }
}

fn worse(one: Status, other: Status) -> Status
    ensures { result ≡ worst one other }
{
    if rank(one) < rank(other) { other } else { one }
}

fn of_writer(wrote: EndCause) -> Status
    ensures { result ≡ write_status wrote }
{
    match wrote {
        EndCause::Finished => Status::Done,
        EndCause::WriteFault => Status::StreamFault,
        EndCause::Store => Status::StoreFault,
        EndCause::Full => Status::StoreFull,
        EndCause::Memory => Status::Memory,
    }
}

// The cause of a writer that its reader found ended. It is never that it finished.
fn of_closed(wrote: EndCause) -> Status
    ensures { result ≡ closed_status wrote }
{
    match wrote {
        EndCause::Finished => Status::Memory,
        EndCause::WriteFault => Status::StreamFault,
        EndCause::Store => Status::StoreFault,
        EndCause::Full => Status::StoreFull,
        EndCause::Memory => Status::Memory,
    }
}

fn of_stream(read: ReadEnd, wrote: EndCause) -> Status
    ensures { result ≡ stream_status read wrote }
{
    match read {
        ReadEnd::Ended => of_writer(wrote),
        ReadEnd::ReadFault => worse(Status::StreamFault, of_writer(wrote)),
        ReadEnd::Long => worse(Status::StreamLong, of_writer(wrote)),
        ReadEnd::Closed => of_closed(wrote),
        ReadEnd::Store => worse(Status::StoreFault, of_writer(wrote)),
        ReadEnd::Full => worse(Status::StoreFull, of_writer(wrote)),
        ReadEnd::Memory => worse(Status::Memory, of_writer(wrote)),
    }
}

/// The first of the causes for which the workers of these streams ended.
pub(crate) fn worst_end<L, C, K>(ended: &[Ended<L, C, K>]) -> Status
    ensures { result ≡ worst_in (λ e. e.read) (λ e. e.wrote) ended.now }
{
    let Some((first, others)) = ended.split_first() else {
        return Status::Done;
    };
    worse(of_stream(first.read, first.wrote), worst_end(others))
}

/// The status of a run whose hall has given back this store: a fault of it comes first, and then the causes of the workers.
pub(crate) fn status_of<D: Disk, L, C, K>(store: &Store<D>, ended: &[Ended<L, C, K>]) -> Status
    ensures broken { is_some (broken_in store.now) ≡ true → result ≡ Status.StoreFault }
    ensures streams { broken_in store.now ≡ None → result ≡ worst_in (λ e. e.read) (λ e. e.wrote) ended.now }
{
    if store.is_broken() {
        return Status::StoreFault;
    }
    worst_end(ended)
}
