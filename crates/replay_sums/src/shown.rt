// The numbers by which kinds and values are shown: each is its place here.

// What is counted.
#[derive(Clone, Copy)]
pub(crate) enum Kind {
    Piece,
    Penalty,
    Variance,
    VarianceSum,
    // A lent float.
    Lent,
    // A segment of channels.
    Segment,
}

// What is compared.
#[derive(Clone, Copy)]
pub(crate) enum Value {
    // Of a piece: its refusal 32 bits higher and its length, its mean and its spread.
    Length,
    Mean,
    Spread,
    // Of its channel.
    ChannelMean,
    Lowest,
    Highest,
    // The running sums at start and end, and those of the squares.
    SumBefore,
    SumAfter,
    SquaresBefore,
    SquaresAfter,
    // The costs of a piece, or of a segment over the channels.
    L2Cost,
    NormalCost,
    // The penalties by BIC, and a custom one.
    L2Penalty,
    NormalPenalty,
    CustomPenalty,
    // A noise variance, a sum of them, how many lent floats are cleared, and a lent float.
    Variance,
    VarianceSum,
    Cleared,
    Lent,
    // Whether a piece has a spread, 1 or 0.
    HasSpread,
}
