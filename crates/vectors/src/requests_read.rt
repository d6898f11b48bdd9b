// Operation 05: a message read as a request. The answer is 00, the tag, and what the request asks for in document 01's checking order:
//
//     01      HELLO          user_agent, scheme, principal, credentials, routing
//     10      RUN            query, parameters, bookmarks, tx_timeout, tx_metadata, mode, db
//     11      BEGIN          bookmarks, tx_timeout, tx_metadata, mode, db
//     2F, 3F  DISCARD, PULL  n (8), qid (8)
//
// A String is its content's start (4) and size (4), a List or a Dictionary its marker's offset (4), tx_timeout has 8 bytes, and mode is
// 00 absent, 01 r or 02 w. What else is absent is all ones.
use crate::{answers, wire};
use console::output;
use entries::view::Mode;
use markers::extent::Span;
use requests::request::{Batch, Request, Transaction};
use std::io;

fn show_span(rt: HostRuntime, span: Span) -> io::Result<()> {
    output::size(rt, span.start, 4)?;
    output::size(rt, span.size, 4)
}

fn show_text(rt: HostRuntime, text: Option<Span>) -> io::Result<()> {
    match text {
        Some(span) => show_span(rt, span),
        None => output::bytes(rt, &[0xFF; 8]),
    }
}

fn show_place(rt: HostRuntime, place: Option<usize>) -> io::Result<()> {
    match place {
        Some(offset) => output::size(rt, offset, 4),
        None => output::bytes(rt, &[0xFF; 4]),
    }
}

fn show_mode(rt: HostRuntime, mode: Option<Mode>) -> io::Result<()> {
    match mode {
        None => output::byte(rt, 0x00),
        Some(Mode::Read) => output::byte(rt, 0x01),
        Some(Mode::Write) => output::byte(rt, 0x02),
    }
}

// What RUN and BEGIN say of their transaction.
fn show_transaction(rt: HostRuntime, transaction: Transaction) -> io::Result<()> {
    show_place(rt, transaction.bookmarks)?;
    output::signed(rt, transaction.tx_timeout.unwrap_or(-1))?;
    show_place(rt, transaction.tx_metadata)?;
    show_mode(rt, transaction.mode)?;
    show_text(rt, transaction.db)
}

fn show_batch(rt: HostRuntime, tag: u8, batch: Batch) -> io::Result<()> {
    output::byte(rt, tag)?;
    output::signed(rt, batch.n)?;
    output::signed(rt, batch.qid)
}

fn show(rt: HostRuntime, request: Request) -> io::Result<()> {
    match request {
        Request::Hello {
            user_agent,
            scheme,
            principal,
            credentials,
            routing,
        } => {
            output::byte(rt, 0x01)?;
            show_span(rt, user_agent)?;
            show_text(rt, scheme)?;
            show_text(rt, principal)?;
            show_text(rt, credentials)?;
            show_place(rt, routing)
        }
        Request::Goodbye => output::byte(rt, 0x02),
        Request::Reset => output::byte(rt, 0x0F),
        Request::Run {
            query,
            parameters,
            transaction,
        } => {
            output::byte(rt, 0x10)?;
            show_span(rt, query)?;
            output::size(rt, parameters, 4)?;
            show_transaction(rt, transaction)
        }
        Request::Begin(transaction) => {
            output::byte(rt, 0x11)?;
            show_transaction(rt, transaction)
        }
        Request::Commit => output::byte(rt, 0x12),
        Request::Rollback => output::byte(rt, 0x13),
        Request::Discard(batch) => show_batch(rt, 0x2F, batch),
        Request::Pull(batch) => show_batch(rt, 0x3F, batch),
    }
}

pub fn read_request(rt: HostRuntime, operands: &[u8]) -> io::Result<()> {
    let [minor, message @ ..] = operands else {
        return answers::no_vector(rt);
    };
    let Some(version) = wire::version_of(*minor) else {
        return answers::no_vector(rt);
    };
    match requests::read::read_request(message, version) {
        Ok(request) => {
            output::byte(rt, 0x00)?;
            show(rt, request)
        }
        Err(fault) => answers::refused(rt, fault),
    }
}
