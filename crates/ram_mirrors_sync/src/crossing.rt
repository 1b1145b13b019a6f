// A side, and several, may go to another thread, and all threads may share the mirrors.
use crate::mirrors::Mirrors;
use crate::side::Side;
use crate::sides::Sides;

fn sends<T: Send>(x: T) -> T {
    x
}

fn shares<T: Sync>(x: &T) -> &T {
    x
}

pub fn side_crosses<N: Send>(x: Side<N>) -> Side<N> {
    sends(x)
}

pub fn sides_cross<N: Send>(x: Sides<N>) -> Sides<N> {
    sends(x)
}

pub fn mirrors_are_shared<N: Send>(x: &Mirrors<N>) -> &Mirrors<N> {
    shares(x)
}
