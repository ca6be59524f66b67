// The operators of BinaryOp in their order: what operands each takes, and what it gives.
ghost use Rattle.std.specs.Prelude.{◌≡◌, ◌<◌, get_or};
ghost use Rattle.syntax.specs.Syntax.{binary_ops, Or};
ghost use Rattle.conversion.specs.Expressions.{operand_class, gives_bool};
ghost use Rattle.types.specs.Operators.{class_of, result_of};

#[derive(Clone, Copy, Debug, PartialEq, Eq)]
pub enum OperandClass {
    Bools,
    Any,
    Numbers,
    Integers,
}

// The operands' common type, or Bool.
#[derive(Clone, Copy, Debug, PartialEq, Eq)]
pub enum ResultClass {
    Common,
    Bool,
}

#[derive(Clone, Copy)]
pub struct Operator {
    pub operands: OperandClass,
    pub result: ResultClass,
}

// What several operators share.
const LOGIC: Operator = Operator {
    operands: OperandClass::Bools,
    result: ResultClass::Bool,
};

const EQUALITY: Operator = Operator {
    operands: OperandClass::Any,
    result: ResultClass::Bool,
};

const ORDER: Operator = Operator {
    operands: OperandClass::Numbers,
    result: ResultClass::Bool,
};

const ARITHMETIC: Operator = Operator {
    operands: OperandClass::Numbers,
    result: ResultClass::Common,
};

const WHOLE: Operator = Operator {
    operands: OperandClass::Integers,
    result: ResultClass::Common,
};

const OPERATORS: [Operator; 18] = [
    LOGIC, // Or
    LOGIC, // And
    WHOLE, // BitOr
    WHOLE, // BitXor
    WHOLE, // BitAnd
    EQUALITY, // Eq
    EQUALITY, // NotEq
    ORDER, // Lt
    ORDER, // Le
    ORDER, // Gt
    ORDER, // Ge
    WHOLE, // Shl
    WHOLE, // Shr
    ARITHMETIC, // Add
    ARITHMETIC, // Sub
    ARITHMETIC, // Mul
    ARITHMETIC, // Div
    WHOLE, // Rem
];

pub fn operator_of(op: usize) -> Operator
    requires { op < 18 }
    ensures { (result.operands ≡ class_of (operand_class (get_or binary_ops op Or))) × (result.result ≡ result_of (gives_bool (get_or binary_ops op Or))) }
{
    OPERATORS[op]
}
