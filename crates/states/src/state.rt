// The states of a connection, and tests of a state. 003, "Server States".
ghost use Rattle.std.specs.Prelude.{◌≡◌, ◌||◌};
ghost use Rattle.states.specs.declared.state.State.TheVariants.{Ready, Streaming, TxStreaming};
ghost use Rattle.states.specs.Requests.{in_state, in_transaction, is_stopped};

// Where a connection stands: 003, "Server States". A state's number, `state as u8`, is its place in 003's list.
#[derive(Clone, Copy, Debug, PartialEq, Eq)]
pub enum State {
    Connected,
    Ready,
    Streaming,
    TxReady,
    TxStreaming,
    Failed,
    Interrupted,
    Defunct,
}

impl State {
    // Whether a transaction is open.
    pub fn in_transaction(self) -> bool
        ensures { result ≡ in_transaction self }
    {
        matches!(self, State::TxReady | State::TxStreaming)
    }

    // Whether a RUN is handed over.
    pub fn runs(self) -> bool
        ensures { result ≡ (in_state self Ready || in_transaction self) }
    {
        self == State::Ready || self.in_transaction()
    }

    // Whether a stream is open.
    pub fn is_streaming(self) -> bool
        ensures { result ≡ (in_state self Streaming || in_state self TxStreaming) }
    {
        matches!(self, State::Streaming | State::TxStreaming)
    }

    // Whether a failure or a RESET has stopped the connection.
    pub fn is_stopped(self) -> bool
        ensures { result ≡ is_stopped self }
    {
        matches!(self, State::Failed | State::Interrupted)
    }
}
