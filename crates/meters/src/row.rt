// A meter's record as it is handed over: any numbers.

// Smart, advanced or unmetered: S, A, U.
#[derive(Clone, Copy, Debug, PartialEq, Eq)]
pub enum Segment {
    Smart,
    Advanced,
    Unmetered,
}

// Active import or active export: I, X.
#[derive(Clone, Copy, Debug, PartialEq, Eq)]
pub enum Quantity {
    Import,
    Export,
}

// How the meter is connected: whole current, or low, high or extra high voltage; W, L, H, E.
#[derive(Clone, Copy, Debug, PartialEq, Eq)]
pub enum Connection {
    WholeCurrent,
    LowVoltage,
    HighVoltage,
    ExtraHighVoltage,
}

// Energised or de-energised: E, D.
#[derive(Clone, Copy, Debug, PartialEq, Eq)]
pub enum Status {
    Energised,
    Deenergised,
}

// A meter's record, each number unchecked.
#[derive(Clone, Copy, Debug, PartialEq, Eq)]
pub struct MeterRow {
    pub mpan: u64,
    pub segment: Segment,
    pub quantity: Quantity,
    pub connection: Connection,
    pub status: Status,
    pub shape_class: u8,
    pub loss_class: u8,
    pub base_unit: u8,
    pub additional_unit: Option<u8>,
    pub tariff: Option<u8>,
    pub supplier: u8,
}
