ghost use Rattle.std.specs.Prelude.{◌≡◌};
ghost use Rattle.schedule.specs.Orders.{order_number, order_of};

/// What an arm is to do. A file has arms 0 to 4,095; whether the gate has the arm is found out when the file is played.
#[derive(Clone, Copy, Debug, PartialEq, Eq)]
pub enum Order {
    Begin(u16),
    Step(u16),
    Leave(u16),
}

impl Order {
    /// Four times the arm plus the kind: 0 begin, 1 step, 2 leave.
    pub fn number(self) -> u32
        ensures { result ≡ order_number self }
    {
        match self {
            Order::Begin(arm) => 4 * u32::from(arm),
            Order::Step(arm) => 4 * u32::from(arm) + 1,
            Order::Leave(arm) => 4 * u32::from(arm) + 2,
        }
    }

    /// The order that has this number; none where its kind is 3.
    pub fn from_number(number: u16) -> Option<Order>
        ensures { result ≡ order_of number }
    {
        let arm = number / 4;
        match number % 4 {
            0 => Some(Order::Begin(arm)),
            1 => Some(Order::Step(arm)),
            2 => Some(Order::Leave(arm)),
            _ => None,
        }
    }
}
