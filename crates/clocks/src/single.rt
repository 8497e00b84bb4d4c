// A bank of one clock.
mod members;

#[derive(Drop)]
pub struct Single<C> {
    clock: C,
}
