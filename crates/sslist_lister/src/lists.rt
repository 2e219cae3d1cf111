//! Lists of sockets. A capture has several if its first request was repeated. In the contracts,
//! `message_parts request.now` is the header and the payload of a request, and `first_request` is
//! the type and the payload of the request in a [`FirstRequest`], or None.

ghost use Rattle.std.specs.Prelude.{◌≡◌, OnOk, None};
ghost use Rattle.sslist_lister.specs.Messages.{message_parts};
ghost use Rattle.sslist_lister.specs.Lists.{first_request, first_with, is_repetition};

use crate::messages::Message;
use std::alloc::{AllocError, Global};

/// The first request of a capture. A later request that is the same begins another list of sockets.
#[derive(Drop)]
pub(crate) struct FirstRequest {
    /// Its type (`nlmsg_type`), or `None` if there was no request.
    message_type: Option<u16>,
    /// The bytes after its header.
    payload: Vec<u8>,
}

impl FirstRequest {
    /// Returns the state before the first request.
    pub(crate) fn new(alloc: Global) -> FirstRequest
        ensures { first_request result ≡ None }
    {
        FirstRequest {
            message_type: None,
            payload: Vec::new(alloc),
        }
    }

    /// Returns whether a request is the same as the first one. Only the types and the bytes after
    /// the headers are compared. Returns false if there was no request before.
    pub(crate) fn is_repeated_by(&self, request: &Message<'_>) -> bool
        ensures { result ≡ is_repetition (first_request self.now) (message_parts request.now) }
    {
        match self.message_type {
            Some(message_type) => {
                message_type == request.header.message_type
                    && self.payload.as_slice() == request.payload
            }
            None => false,
        }
    }

    /// Stores a request, unless an earlier one is stored: then it does nothing. If it fails, an
    /// allocation failed, and the first request is not specified.
    pub(crate) fn add(&mut self, request: &Message<'_>) -> Result<(), AllocError>
        ensures { OnOk result (first_request self.new
            ≡ first_with (message_parts request.now) (first_request self.old)) }
    {
        if self.message_type.is_some() {
            return Ok(());
        }
        // It is empty, unless an earlier call failed.
        self.payload.clear();
        self.payload.extend_from_slice(request.payload)?;
        self.message_type = Some(request.header.message_type);
        Ok(())
    }
}
