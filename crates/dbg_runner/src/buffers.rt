//! Keeps the buffers for what slices write and log.

use crate::slicing::SLICE_LIMIT;
use dbg_plan::Logs;
use std::alloc::{AllocError, Global};

/// The buffers that no report carries. A slice takes them, and puts those that it doesn't use back for the next slice.
#[derive(Drop)]
pub struct Buffers {
    numbers: Option<Vec<i64>>,
    logs: Option<Logs>,
}

impl Buffers {
    ghost use Rattle.std.specs.Prelude.{◌≡◌, ◌≤◌, [], None, IfOk, vec_capacity};
    ghost use Rattle.dbg_runner.specs.Rooms.{slice_limit};
    ghost use Rattle.dbg_runner.specs.Buffers.{numbers_in, logs_in};

    /// Returns `Buffers` without a buffer. It allocates nothing.
    pub fn new() -> Buffers
        ensures numbers { result.numbers ≡ None }
        ensures logs { result.logs ≡ None }
    {
        Buffers {
            numbers: None,
            logs: None,
        }
    }

    /// Takes a buffer for the numbers that a slice can write. It is allocated if none is kept.
    ///
    /// # Errors
    ///
    /// Out of memory.
    pub(crate) fn take_numbers(&mut self, alloc: Global) -> Result<Vec<i64>, AllocError>
        ensures empty { IfOk result (λ numbers. numbers.items ≡ []) }
        ensures room { IfOk result (λ numbers. slice_limit ≤ vec_capacity numbers) }
    {
        let mut numbers = self.numbers.take().unwrap_or(Vec::new(alloc));
        numbers.clear();
        numbers.reserve(SLICE_LIMIT as usize)?;
        Ok(numbers)
    }

    /// Takes a buffer for logs. It is allocated if none is kept.
    ///
    /// # Errors
    ///
    /// Out of memory.
    pub(crate) fn take_logs(&mut self, alloc: Global) -> Result<Logs, AllocError>
        ensures { IfOk result (λ logs. logs ≡ []) }
    {
        match self.logs.take() {
            Some(mut logs) => {
                logs.clear();
                Ok(logs)
            }
            None => Logs::new(alloc),
        }
    }

    /// Keeps a buffer that holds no number, and returns `None`; returns a buffer that holds one.
    #[inline]
    pub(crate) fn keep_numbers(&mut self, numbers: Vec<i64>) -> Option<Vec<i64>>
        ensures { numbers_in result ≡ numbers.items }
    {
        if numbers.is_empty() {
            self.numbers = Some(numbers);
            return None;
        }
        Some(numbers)
    }

    /// Keeps a buffer that holds no log, and returns `None`; returns a buffer that holds one.
    #[inline]
    pub(crate) fn keep_logs(&mut self, logs: Logs) -> Option<Logs>
        ensures { logs_in result ≡ logs }
    {
        if logs.is_empty() {
            self.logs = Some(logs);
            return None;
        }
        Some(logs)
    }
}
