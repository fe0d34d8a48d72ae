use slnf_bucket::BucketError;
use slnf_instance::{Errand, Instance, Items, Work};
use slnf_store::StorePass;

/// An actor before its epoch, with what it is sent to do and its pass of the store.
#[derive(Drop)]
pub struct Desk<'a, T: Items> {
    pub instance: Instance<'a, T>,
    pub errand: Errand,
    pub pass: StorePass,
}

/// What became of an actor in its epoch, and its pass. Where an access was refused, it made none after it.
#[derive(Drop)]
pub struct Report {
    pub pass: StorePass,
    pub outcome: Result<Work, BucketError>,
}
