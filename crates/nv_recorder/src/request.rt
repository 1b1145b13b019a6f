// A request whose content is lent.
ghost use Rattle.std.specs.Prelude.{◌≡◌};
ghost use Rattle.nv_recorder.specs.Request.{content_in, kind_in, request_lent, whole_request};

use nv_base::{Bytes, Request};

/// What is asked, as `Request`: the content that a write or a put brings stands beside it.
#[derive(Clone, Copy)]
pub enum RequestKind {
    Read { block: u16, ram: bool },
    /// A write of that content.
    Write { block: u16, store: u64 },
    /// A write of the block's RAM.
    WriteRam { block: u16, store: u64 },
    Restore { block: u16, ram: bool },
    Erase { block: u16 },
    Invalidate { block: u16 },
    SetIndex { block: u16, index: u8 },
    GetIndex { block: u16 },
    SetProtection { block: u16, on: bool },
    SetLock { block: u16, on: bool },
    SetRam { block: u16, on: bool },
    /// A put of that content.
    PutRam { block: u16 },
    Status { block: u16 },
    ReadAll,
    WriteAll,
    CancelWriteAll,
}

impl RequestKind {
    /// The request with this content, which goes where it brings none.
    pub fn whole(self, content: Bytes) -> Request
        ensures { result ≡ whole_request self content }
    {
        match self {
            RequestKind::Read { block, ram } => Request::Read { block, ram },
            RequestKind::Write { block, store } => Request::Write {
                block,
                content: Some(content),
                store,
            },
            RequestKind::WriteRam { block, store } => Request::Write {
                block,
                content: None,
                store,
            },
            RequestKind::Restore { block, ram } => Request::Restore { block, ram },
            RequestKind::Erase { block } => Request::Erase { block },
            RequestKind::Invalidate { block } => Request::Invalidate { block },
            RequestKind::SetIndex { block, index } => Request::SetIndex { block, index },
            RequestKind::GetIndex { block } => Request::GetIndex { block },
            RequestKind::SetProtection { block, on } => Request::SetProtection { block, on },
            RequestKind::SetLock { block, on } => Request::SetLock { block, on },
            RequestKind::SetRam { block, on } => Request::SetRam { block, on },
            RequestKind::PutRam { block } => Request::PutRam { block, content },
            RequestKind::Status { block } => Request::Status { block },
            RequestKind::ReadAll => Request::ReadAll,
            RequestKind::WriteAll => Request::WriteAll,
            RequestKind::CancelWriteAll => Request::CancelWriteAll,
        }
    }
}

/// A request whose content is lent. The content of one that brings none isn't looked at: as a rule it has no bytes.
#[derive(Clone, Copy)]
pub struct LentRequest<'a> {
    pub kind: RequestKind,
    pub content: &'a [u8],
}

impl<'a> LentRequest<'a> {
    /// Lends a request.
    pub fn of(request: &'a Request) -> LentRequest<'a>
        ensures { request_lent result ≡ request.now }
    {
        LentRequest {
            kind: kind_of(request),
            content: content_of(request),
        }
    }
}

// What a request asks.
fn kind_of(request: &Request) -> RequestKind
    ensures { result ≡ kind_in request.now }
{
    match request {
        Request::Read { block, ram } => RequestKind::Read {
            block: *block,
            ram: *ram,
        },
        Request::Write {
            block,
            content: Some(_),
            store,
        } => RequestKind::Write {
            block: *block,
            store: *store,
        },
        Request::Write {
            block,
            content: None,
            store,
        } => RequestKind::WriteRam {
            block: *block,
            store: *store,
        },
        Request::Restore { block, ram } => RequestKind::Restore {
            block: *block,
            ram: *ram,
        },
        Request::Erase { block } => RequestKind::Erase { block: *block },
        Request::Invalidate { block } => RequestKind::Invalidate { block: *block },
        Request::SetIndex { block, index } => RequestKind::SetIndex {
            block: *block,
            index: *index,
        },
        Request::GetIndex { block } => RequestKind::GetIndex { block: *block },
        Request::SetProtection { block, on } => RequestKind::SetProtection {
            block: *block,
            on: *on,
        },
        Request::SetLock { block, on } => RequestKind::SetLock {
            block: *block,
            on: *on,
        },
        Request::SetRam { block, on } => RequestKind::SetRam {
            block: *block,
            on: *on,
        },
        Request::PutRam { block, .. } => RequestKind::PutRam { block: *block },
        Request::Status { block } => RequestKind::Status { block: *block },
        Request::ReadAll => RequestKind::ReadAll,
        Request::WriteAll => RequestKind::WriteAll,
        Request::CancelWriteAll => RequestKind::CancelWriteAll,
    }
}

// The content that a request brings, or no bytes.
fn content_of(request: &Request) -> &[u8]
    ensures { result.now ≡ content_in request.now }
{
    match request {
        Request::Write {
            content: Some(content),
            ..
        }
        | Request::PutRam { content, .. } => content.as_slice(),
        _ => &[],
    }
}
