//! Where a caller may hold a worker.
use std::sync::Wait;
use std::thread::Threads;

/// Is called by each worker before each of its messages, in the thread that does the worker, and may wait there: so a
/// test can hold a worker until another has come somewhere, or until a screen has seen something.
pub trait Gate: Sync {
    /// A worker, by its number from 0, comes to a message of the day, by its number from 1.
    fn at<R: Threads + Wait + Sync>(&self, rt: &R, worker: u32, message: u32);
}

/// A gate that lets every worker pass at once.
#[derive(Debug, Clone, Copy)]
pub struct FreeGate;

impl Gate for FreeGate {
    fn at<R: Threads + Wait + Sync>(&self, _rt: &R, _worker: u32, _message: u32) {}
}
