//! The steps of the conversations, what each tells, and what the tables have.

/// The steps: each is a statement, or a batch of some. The first line of one has those that it comes behind, by their numbers; the
/// name of what the tables have behind it; how many commits the log has then; and the DONE of the statement where memory was
/// wanting for it, or `-` where none may be, or it is told otherwise. The second is the text. Behind `=> told` stands what it tells, behind `=> refused` how else it is told that
/// memory was wanting, and behind `=> caught` what is told where that was caught. A line `no memory` is the error 701.
pub(crate) const STEPS: &str = "- orders 1 DONE(03,0,0)
CREATE TABLE orders (id INT NOT NULL PRIMARY KEY, customer NVARCHAR(20) NOT NULL)
=> told
DONE(00,0,0)
---
1 empty 2 DONE(03,0,0)
CREATE TABLE items (order_id INT NOT NULL REFERENCES orders (id), line INT NOT NULL, qty INT NOT NULL CHECK (qty > 0), price INT NOT NULL, PRIMARY KEY (order_id, line))
=> told
DONE(00,0,0)
---
1.2 ordered 3 DONE(03,C3,0)
INSERT INTO orders VALUES (1, N'Ann'), (2, N'Bob'), (3, N'Cy')
=> told
DONE(11,C3,3)
DONE(00,0,0)
---
1.2.3 filled 4 DONE(03,C3,0)
INSERT INTO items VALUES (1, 1, 2, 50), (1, 2, 1, 30), (2, 1, 4, 10)
=> told
DONE(11,C3,3)
DONE(00,0,0)
---
1.2.3.4 filled 4 DONE(03,C1,0)
SELECT o.customer, SUM(i.qty * i.price) AS total FROM orders o LEFT JOIN items i ON i.order_id = o.id GROUP BY o.customer ORDER BY o.customer
=> told
COL(customer NVARCHAR(20), total INT)
ROW('Ann', 130)
ROW('Bob', 40)
ROW('Cy', NULL)
DONE(11,C1,3)
DONE(00,0,0)
---
1.2.3.4 filled 4 DONE(03,C3,0)
INSERT INTO items VALUES (9, 1, 1, 1)
=> told
ERROR 547 class 16 state 1 line 1: The statement conflicted with the constraint 'FK_items_1'.
DONE(03,C3,0)
DONE(00,0,0)
---
1.2.3.4 filled 4 DONE(03,C3,0)
INSERT INTO items VALUES (1, 3, 0, 5)
=> told
ERROR 547 class 16 state 1 line 1: The statement conflicted with the constraint 'CK_items_1'.
DONE(03,C3,0)
DONE(00,0,0)
---
1.2.3.4 filled 4 DONE(03,0,0)
BEGIN TRAN
=> told
ENVCHANGE 8
DONE(00,0,0)
---
1.2.3.4.8 four 4 DONE(03,C3,0)
INSERT orders VALUES (4, N'Di')
=> told
DONE(11,C3,1)
DONE(00,0,0)
---
1.2.3.4.8.9 four 4 DONE(03,0,0)
SAVE TRAN a
=> told
DONE(00,0,0)
---
1.2.3.4.8.9.10 raised 4 DONE(03,C5,0)
UPDATE items SET qty = qty + 1
=> told
DONE(11,C5,3)
DONE(00,0,0)
---
1.2.3.4.8.9.10.11 fewer 4 DONE(03,C4,0)
DELETE FROM orders WHERE id = 3
=> told
DONE(11,C4,1)
DONE(00,0,0)
---
1.2.3.4.8.9.10.11.12 four 4 -
ROLLBACK TRAN a
=> told
DONE(00,0,0)
---
1.2.3.4.8.9 four 4 DONE(03,C3,0)
INSERT orders VALUES (1, N'X')
=> told
ERROR 2627 class 14 state 1 line 1: Violation of constraint 'PK_orders'. Duplicate key.
DONE(03,C3,0)
DONE(00,0,0)
---
1.2.3.4.8.9 four 5 -
COMMIT
=> told
ENVCHANGE 9
DONE(00,0,0)
---
1.2.3.4.8 filled 4 DONE(03,0,0)
BEGIN TRAN
=> told
DONE(00,0,0)
---
1.2.3.4.8.16 filled 4 -
COMMIT
=> told
DONE(00,0,0)
---
1.2.3.4.8.9 filled 4 -
ROLLBACK
=> told
ENVCHANGE 10
DONE(00,0,0)
---
1.2.3.4 filled 4 DONE(03,0,0)
SET XACT_ABORT ON
=> told
DONE(00,0,0)
---
1.2.3.4.19 filled 4 -
BEGIN TRAN; UPDATE orders SET customer = N'Y'; SELECT 1 / 0
=> told
ENVCHANGE 8
DONE(11,C5,3)
ERROR 8134 class 16 state 1 line 1: Divide by zero error encountered.
ENVCHANGE 10
DONE(02,0,0)
=> refused
no memory
DONE(02,0,0)
=> refused
ENVCHANGE 8
no memory
ENVCHANGE 10
DONE(02,0,0)
=> refused
ENVCHANGE 8
DONE(11,C5,3)
no memory
ENVCHANGE 10
DONE(02,0,0)
---
1.2.3.4.19 filled 4 -
BEGIN TRAN; BEGIN TRY UPDATE orders SET customer = N'Y'; SELECT 1 / 0 END TRY BEGIN CATCH SELECT XACT_STATE() AS x END CATCH
=> told
ENVCHANGE 8
DONE(11,C5,3)
COL(x SMALLINT)
ROW(-1)
DONE(11,C1,1)
ERROR 3998 class 16 state 1 line 1: Uncommittable transaction is detected at the end of the batch.
ENVCHANGE 10
DONE(02,0,0)
=> refused
no memory
DONE(02,0,0)
=> refused
ENVCHANGE 8
DONE(11,C5,3)
no memory
ENVCHANGE 10
DONE(02,0,0)
=> caught
ENVCHANGE 8
COL(x SMALLINT)
ROW(-1)
DONE(11,C1,1)
ERROR 3998 class 16 state 1 line 1: Uncommittable transaction is detected at the end of the batch.
ENVCHANGE 10
DONE(02,0,0)
---
1.2.3.4 filled 4 DONE(03,C1,0)
SELECT @@TRANCOUNT AS n, XACT_STATE() AS x
=> told
COL(n INT, x SMALLINT)
ROW(0, 0)
DONE(11,C1,1)
DONE(00,0,0)
---
1.2.3.4 filled 4 DONE(03,C1,0)
BEGIN TRY INSERT orders VALUES (1, N'X') END TRY BEGIN CATCH SELECT ERROR_NUMBER() AS e END CATCH
=> told
COL(e INT)
ROW(2627)
DONE(11,C1,1)
DONE(00,0,0)
=> caught
COL(e INT)
ROW(701)
DONE(11,C1,1)
DONE(00,0,0)
---
1.2.3.4 filled 4 DONE(03,0,0)
DECLARE c CURSOR FOR SELECT customer FROM orders ORDER BY id
=> told
DONE(00,0,0)
---
1.2.3.4.24 filled 4 DONE(03,0,0)
OPEN c
=> told
DONE(00,0,0)
---
1.2.3.4.24.25 filled 4 DONE(03,C1,0)
DECLARE @s NVARCHAR(20) BEGIN TRY FETCH NEXT FROM c INTO @s END TRY BEGIN CATCH FETCH NEXT FROM c INTO @s END CATCH SELECT @s AS s
=> told
COL(s NVARCHAR(20))
ROW('Ann')
DONE(11,C1,1)
DONE(00,0,0)
=> refused
no memory
DONE(03,0,0)
COL(s NVARCHAR(20))
ROW('Ann')
DONE(11,C1,1)
DONE(00,0,0)
";

/// What two queries show of the tables, by name.
pub(crate) const TABLES: &str = "neither
ERROR 208 class 16 state 1 line 1: Invalid object name 'orders'.
DONE(02,0,0)
---
orders
COL(id INT, customer NVARCHAR(20))
DONE(11,C1,0)
ERROR 208 class 16 state 1 line 1: Invalid object name 'items'.
DONE(02,0,0)
---
empty
COL(id INT, customer NVARCHAR(20))
DONE(11,C1,0)
COL(order_id INT, line INT, qty INT, price INT)
DONE(11,C1,0)
DONE(00,0,0)
---
ordered
COL(id INT, customer NVARCHAR(20))
ROW(1, 'Ann')
ROW(2, 'Bob')
ROW(3, 'Cy')
DONE(11,C1,3)
COL(order_id INT, line INT, qty INT, price INT)
DONE(11,C1,0)
DONE(00,0,0)
---
filled
COL(id INT, customer NVARCHAR(20))
ROW(1, 'Ann')
ROW(2, 'Bob')
ROW(3, 'Cy')
DONE(11,C1,3)
COL(order_id INT, line INT, qty INT, price INT)
ROW(1, 1, 2, 50)
ROW(1, 2, 1, 30)
ROW(2, 1, 4, 10)
DONE(11,C1,3)
DONE(00,0,0)
---
four
COL(id INT, customer NVARCHAR(20))
ROW(1, 'Ann')
ROW(2, 'Bob')
ROW(3, 'Cy')
ROW(4, 'Di')
DONE(11,C1,4)
COL(order_id INT, line INT, qty INT, price INT)
ROW(1, 1, 2, 50)
ROW(1, 2, 1, 30)
ROW(2, 1, 4, 10)
DONE(11,C1,3)
DONE(00,0,0)
---
raised
COL(id INT, customer NVARCHAR(20))
ROW(1, 'Ann')
ROW(2, 'Bob')
ROW(3, 'Cy')
ROW(4, 'Di')
DONE(11,C1,4)
COL(order_id INT, line INT, qty INT, price INT)
ROW(1, 1, 3, 50)
ROW(1, 2, 2, 30)
ROW(2, 1, 5, 10)
DONE(11,C1,3)
DONE(00,0,0)
---
fewer
COL(id INT, customer NVARCHAR(20))
ROW(1, 'Ann')
ROW(2, 'Bob')
ROW(4, 'Di')
DONE(11,C1,3)
COL(order_id INT, line INT, qty INT, price INT)
ROW(1, 1, 3, 50)
ROW(1, 2, 2, 30)
ROW(2, 1, 5, 10)
DONE(11,C1,3)
DONE(00,0,0)
";
