//! The definitions, tried on three strangers and the peer.

ghost use Rattle.stranger_laws.specs.Samples.{StrangersSample};

/// One who says nothing, one who gives half a frame and one whose credentials lack their last byte are strangers, on whose connections nothing is
/// accepted; and the peer behind them is heard.
pub fn strangers_sample()
    ensures law { StrangersSample }
{}
