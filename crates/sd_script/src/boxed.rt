//! What a token makes large, in boxes: what a line asks for is moved several times.
ghost use Rattle.std.specs.Prelude.{◌≡◌, IfOk};

use sd_check::Token;
use sd_versions::Request;
use std::alloc::{AllocError, Global};
use std::marker::Model;

/// A token. Contracts see its value.
#[derive(Debug, Drop)]
pub struct BoxedToken {
    token: Box<Token>,
}

impl Model for BoxedToken {
    ghost use Rattle.sd_check.specs.Token.{TokenValue};

    ghost Value = { TokenValue };

    ghost view = { λ b. b.token.value };
}

impl BoxedToken {
    /// The only error is out of memory.
    pub(crate) fn new(alloc: Global, token: Token) -> Result<BoxedToken, AllocError>
        ensures { IfOk result (λ boxed. boxed ≡ token) }
    {
        let token = Box::new(alloc, token)?;
        Ok(BoxedToken { token })
    }

    pub(crate) fn as_token(&self) -> &Token
        ensures { result.now ≡ self.now }
    {
        self.token.as_ref()
    }
}

/// What is asked of a store. Contracts see the request.
#[derive(Debug, Drop)]
pub struct BoxedRequest {
    request: Box<Request>,
}

impl Model for BoxedRequest {
    ghost use Rattle.sd_edit.specs.declared.request.Request.{Request};

    ghost Value = { Request };

    ghost view = { λ b. b.request.value };
}

impl BoxedRequest {
    /// The only error is out of memory.
    pub(crate) fn new(alloc: Global, request: Request) -> Result<BoxedRequest, AllocError>
        ensures { IfOk result (λ boxed. boxed ≡ request) }
    {
        let request = Box::new(alloc, request)?;
        Ok(BoxedRequest { request })
    }

    pub(crate) fn as_request(&self) -> &Request
        ensures { result.now ≡ self.now }
    {
        self.request.as_ref()
    }

    pub fn into_request(self) -> Request
        ensures { result ≡ self }
    {
        Box::into_inner(self.request)
    }
}
