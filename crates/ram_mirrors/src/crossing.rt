//! Each end may go to another thread, and all threads may share the mirror.
use crate::ends::{Owner, Taker};
use crate::mirror::Mirror;

fn sends<T: Send>(x: T) -> T {
    x
}

fn shares<T: Sync>(x: &T) -> &T {
    x
}

pub fn owner_crosses<N: Send>(x: Owner<N>) -> Owner<N> {
    sends(x)
}

pub fn taker_crosses<N: Send>(x: Taker<N>) -> Taker<N> {
    sends(x)
}

pub fn mirror_is_shared<N: Send>(x: &Mirror<N>) -> &Mirror<N> {
    shares(x)
}
