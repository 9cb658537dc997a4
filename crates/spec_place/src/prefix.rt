/// A prefix of the metre (IfcSIPrefix), as far as it is read.
#[derive(Clone, Copy, Debug, PartialEq, Eq)]
pub enum Prefix {
    /// 1000 metres.
    Kilo,
    /// 100 metres.
    Hecto,
    /// 10 metres.
    Deca,
    /// A tenth of a metre.
    Deci,
    /// A hundredth of a metre.
    Centi,
    /// A thousandth of a metre.
    Milli,
    /// A millionth of a metre.
    Micro,
}
